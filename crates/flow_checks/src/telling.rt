//! How the end of a call is printed, and what it wrote.
use check_lines::{put_file, put_records, put_rows, put_text};
use std::alloc::Global;

// Appends the line on standard error, if there is one.
pub(crate) fn put_line(notes: &[u8], rows: &mut String) -> Option<()> {
    if notes.is_empty() {
        return Some(());
    }
    let line = match str::from_utf8(notes).ok()?.strip_suffix('\n') {
        Some(line) => line,
        None => "a line that is cut",
    };
    write!(rows, ", {line}").ok()
}

// Appends the number of the status, how many bytes were written and are left in the source, and the line on standard error.
pub(crate) fn put_end(
    exit: u8,
    written: usize,
    left: Option<usize>,
    notes: &[u8],
    rows: &mut String,
) -> Option<()> {
    write!(rows, " {exit}, {written} bytes").ok()?;
    if let Some(left) = left {
        write!(rows, ", {left} left").ok()?;
    }
    put_line(notes, rows)?;
    rows.push('\n').ok()
}

// Appends the number of the status, how many bytes were written, whether they are a prefix, and the line on standard error.
pub(crate) fn put_prefix(
    exit: u8,
    written: usize,
    is_prefix: bool,
    notes: &[u8],
    rows: &mut String,
) -> Option<()> {
    write!(rows, " {exit}, {written}").ok()?;
    rows.push_str(if is_prefix { " bytes" } else { " other bytes" })
        .ok()?;
    put_line(notes, rows)?;
    rows.push('\n').ok()
}

// Appends the rows of the output: a checkpoint, another file, records, or a text.
pub(crate) fn put_out(alloc: Global, out: &[u8], most: usize, rows: &mut String) -> Option<()> {
    if out.starts_with(b"FLOWSNP1") {
        return put_rows(alloc, out, rows);
    }
    if out.starts_with(b"FLOW") {
        return put_file(alloc, out, most, rows);
    }
    match out.first() {
        Some(first) if *first < b' ' => put_records(alloc, out, most, rows),
        _ => put_text(out, rows),
    }
}
