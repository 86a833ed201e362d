//! How often calls ended in which way.
use crate::calling::put_digits;
use check_lines::Told;
use std::alloc::Global;

// The number of an exit and the bytes in the output, and how often they came.
#[derive(Drop)]
struct Count {
    exit: u8,
    out: Vec<u8>,
    times: u32,
}

// What came so far, in the order in which it first came.
#[derive(Drop)]
pub(crate) struct Counts {
    counts: Vec<Count>,
}

impl Counts {
    // Nothing so far.
    pub(crate) fn new(alloc: Global) -> Counts {
        Counts {
            counts: Vec::new(alloc),
        }
    }

    // Counts one more.
    pub(crate) fn add(&mut self, alloc: Global, exit: u8, out: &[u8]) -> Option<()> {
        for count in &mut self.counts {
            if count.exit == exit && count.out.as_slice() == out {
                count.times = count.times.saturating_add(1);
                return Some(());
            }
        }
        let out = out.to_vec(alloc).ok()?;
        self.counts
            .push(Count {
                exit,
                out,
                times: 1,
            })
            .ok()
    }

    // Appends a row for each way.
    pub(crate) fn put(&self, alloc: Global, told: &mut Told) {
        told.put("\n");
        for count in &self.counts {
            told.put_number("  ", i128::from(count.times));
            told.put_number(" times ", i128::from(count.exit));
            told.put(", ");
            put_digits(alloc, &count.out, told);
        }
    }
}
