//! How answers are printed.
use check_lines::Told;

// Prints a word, and numbers after it.
pub(crate) fn put(word: &str, numbers: &[i128], told: &mut Told) {
    told.put(" ");
    told.put(word);
    for number in numbers {
        told.put_number(" ", *number);
    }
}

// Prints a number, or that there is none.
pub(crate) fn put_option(number: Option<i128>, told: &mut Told) {
    match number {
        Some(number) => told.put_number(" ", number),
        None => put("none", &[], told),
    }
}

// Prints the name of a call, as it is written. What it answers follows in the same row.
pub(crate) fn put_name(call: &str, told: &mut Told) {
    told.put("  ");
    told.put(call);
    told.put(":");
}
