//! The line on a sample.
ghost use Rattle.std.specs.Prelude.{◌≡◌, IfOk};
ghost use Rattle.sample_summary.specs.Summary.{summary_line};

use crate::counting::Counts;
use std::alloc::Global;
use wire_records::Memory;
use word_driver::put_number;

// The length of the longest line: four numbers of 20 digits, and 43 bytes of words.
const LONGEST_SUMMARY: usize = 123;

/// Returns the line on a sample of so many orders, with its line feed, or `Memory` if there is none for it.
pub(crate) fn line_of(alloc: Global, orders: u32, counts: Counts) -> Result<Vec<u8>, Memory>
    ensures { IfOk result (λ line. line.items ≡ summary_line orders counts.cleared counts.skipped counts.units) }
{
    let mut line = Vec::with_capacity(alloc, LONGEST_SUMMARY)?;
    put_number(&mut line, b"orders ", u64::from(orders), b" batches 4 ");
    put_number(&mut line, b"cleared ", counts.cleared, b" ");
    put_number(&mut line, b"skipped ", counts.skipped, b" ");
    put_number(&mut line, b"units ", counts.units, b"\n");
    Ok(line)
}
