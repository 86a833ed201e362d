//! Fields at a cursor.
use crate::telling::{put, put_bytes};
use check_lines::Told;
use std::alloc::Global;
use wire_fields::{
    Cursor, put_bytes as put_field_bytes, put_i32, put_i64, put_i128, put_u8, put_u16, put_u32,
    put_u64,
};

// The most bytes of a number.
const WIDEST: usize = 16;

// Appends a number of this type.
fn put_number(kind: &str, number: &str, out: &mut Vec<u8>) -> Option<()> {
    if out.capacity() - out.len() < WIDEST {
        return None;
    }
    match kind {
        "u8" => put_u8(out, number.parse().ok()?),
        "u16" => put_u16(out, number.parse().ok()?),
        "u32" => put_u32(out, number.parse().ok()?),
        "u64" => put_u64(out, number.parse().ok()?),
        "i32" => put_i32(out, number.parse().ok()?),
        "i64" => put_i64(out, number.parse().ok()?),
        "i128" => put_i128(out, number.parse().ok()?),
        _ => return None,
    }
    Some(())
}

// Appends bytes, or a number of a type.
fn put_field(field: &str, bytes: &[u8], out: &mut Vec<u8>) -> Option<()> {
    if field == "bytes" {
        if out.capacity() - out.len() < bytes.len() {
            return None;
        }
        put_field_bytes(out, bytes);
        return Some(());
    }
    let (kind, number) = field.split_once('/')?;
    put_number(kind, number, out)
}

fn encoded(alloc: Global, fields: &str, bytes: &[u8]) -> Option<Vec<u8>> {
    let mut out = Vec::new(alloc);
    for field in fields.split(' ') {
        out.reserve(WIDEST.max(bytes.len())).ok()?;
        put_field(field, bytes, &mut out)?;
    }
    Some(out)
}

// Prints the bytes of fields, of which one may be the bytes.
pub(crate) fn put_fields(alloc: Global, fields: &str, bytes: &[u8], told: &mut Told) {
    match encoded(alloc, fields, bytes) {
        Some(out) => put_bytes(&out, told),
        None => told.give_up(),
    }
}

fn tell(word: &str, number: Option<i128>, told: &mut Told) {
    match number {
        Some(number) => put(word, &[number], told),
        None => put(word, &[], told),
    }
}

// Takes a field of this type, and prints it; only the type if too few bytes are left.
fn take(field: &str, cursor: &mut Cursor<'_>, told: &mut Told) {
    match field {
        "u8" => tell(field, cursor.take_u8().map(i128::from), told),
        "u16" => tell(field, cursor.take_u16().map(i128::from), told),
        "u32" => tell(field, cursor.take_u32().map(i128::from), told),
        "u64" => tell(field, cursor.take_u64().map(i128::from), told),
        "i32" => tell(field, cursor.take_i32().map(i128::from), told),
        "i64" => tell(field, cursor.take_i64().map(i128::from), told),
        "i128" => tell(field, cursor.take_i128(), told),
        _ => take_some(field, cursor, told),
    }
}

// Takes as many bytes as the field says, and prints them, or `none`.
fn take_some(field: &str, cursor: &mut Cursor<'_>, told: &mut Told) {
    let Ok(count) = field.parse() else {
        return told.give_up();
    };
    match cursor.take(count) {
        Some(bytes) => put_bytes(bytes, told),
        None => put("none", &[], told),
    }
}

// Prints fields that are taken from the bytes, and how many bytes are left.
pub(crate) fn put_taken(fields: &str, bytes: &[u8], told: &mut Told) {
    let mut cursor = Cursor::new(bytes);
    for field in fields.split(' ') {
        take(field, &mut cursor, told);
    }
    put("left", &[cursor.left() as i128], told);
}
