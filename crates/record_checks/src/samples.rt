//! The command file of a sample.
use check_lines::Told;
use sample_market::{MOST_ORDERS, sample_commands};
use std::alloc::Global;

// Returns the bytes as one number, in which each byte counts by its place: FNV-1a of 64 bits.
fn sum_of(bytes: &[u8]) -> u64 {
    let mut sum = 0xcbf2_9ce4_8422_2325u64;
    for byte in bytes {
        sum = (sum ^ u64::from(*byte)).wrapping_mul(0x0100_0000_01b3);
    }
    sum
}

fn put_file(file: &[u8], told: &mut Told) {
    told.put_number(" ", file.len() as i128);
    told.put_number(" bytes, ", sum_of(file).into());
    told.put("\n");
    let (_, records) = file.split_at(file.len().min(8));
    told.put_records(records, 7);
}

fn put_sample_of(alloc: Global, number: u64, orders: u32, told: &mut Told) {
    if orders == 0 || orders > MOST_ORDERS {
        return told.give_up();
    }
    match sample_commands(alloc, number, orders) {
        Ok(file) => put_file(&file, told),
        Err(_) => told.give_up(),
    }
}

// Prints how many bytes the file of a sample has and their sum, and its last records.
pub(crate) fn put_sample(alloc: Global, words: &str, told: &mut Told) {
    let (number, orders) = words.split_once(' ').unwrap_or((words, ""));
    match (number.parse(), orders.parse()) {
        (Ok(number), Ok(orders)) => put_sample_of(alloc, number, orders, told),
        _ => told.give_up(),
    }
}
