//! The rows in which bytes are printed.
use crate::record::records;
use std::alloc::Global;

// Appends a blank and the digits of bytes, if there are any.
fn put_digits(alloc: Global, bytes: &[u8], rows: &mut String) -> Option<()> {
    if bytes.is_empty() {
        return Some(());
    }
    let digits = hex::encode(alloc, bytes).ok()?;
    write!(rows, " {digits}").ok()
}

// Appends the row of a record.
fn put_record(alloc: Global, record: &[u8], rows: &mut String) -> Option<()> {
    let (head, body) = record.split_at(record.len().min(5));
    let (tag, length) = head.split_at(head.len().min(1));
    rows.push(' ').ok()?;
    put_digits(alloc, tag, rows)?;
    put_digits(alloc, length, rows)?;
    put_digits(alloc, body, rows)?;
    rows.push('\n').ok()
}

/// Appends a row for each record: its tag, its length and its body in hexadecimal digits. If there are more than `most`,
/// only the last ones have a row. `None` if memory ran out.
pub fn put_records(alloc: Global, bytes: &[u8], most: usize, rows: &mut String) -> Option<()> {
    let records = records(alloc, bytes)?;
    for record in &records[records.len().saturating_sub(most)..] {
        put_record(alloc, record, rows)?;
    }
    Some(())
}

/// Appends a row for each line of a text. `None` if the bytes are no text, or memory ran out.
pub fn put_text(bytes: &[u8], rows: &mut String) -> Option<()> {
    let text = str::from_utf8(bytes).ok()?;
    for line in text.lines() {
        write!(rows, "  {line}\n").ok()?;
    }
    Some(())
}

/// Appends the rows of a file: one for the magic, and those of the records after it, as [`put_records`] does.
pub fn put_file(alloc: Global, bytes: &[u8], most: usize, rows: &mut String) -> Option<()> {
    let (magic, records) = bytes.split_at(bytes.len().min(8));
    put_text(magic, rows)?;
    put_records(alloc, records, most, rows)
}

/// Appends the bytes in hexadecimal digits, 16 in a row. `None` if memory ran out.
pub fn put_rows(alloc: Global, bytes: &[u8], rows: &mut String) -> Option<()> {
    for row in bytes.chunks(16) {
        rows.push(' ').ok()?;
        put_digits(alloc, row, rows)?;
        rows.push('\n').ok()?;
    }
    Some(())
}
