//! The result of a case, as it is printed.
use crate::row::{put_records, put_text};
use std::alloc::Global;

/// The rows of a case's result. Those who append get no answer: if memory ran out, or the case is faulty, nothing of it is printed.
#[derive(Drop)]
pub struct Told {
    alloc: Global,
    rows: String,
    is_whole: bool,
}

impl Told {
    /// Nothing so far. Allocates nothing.
    pub fn new(alloc: Global) -> Told {
        Told {
            alloc,
            rows: String::new(alloc),
            is_whole: true,
        }
    }

    /// Appends a text.
    pub fn put(&mut self, text: &str) {
        let put = self.rows.push_str(text).ok();
        self.keep(put);
    }

    /// Appends a text, and a number after it.
    pub fn put_number(&mut self, text: &str, number: i128) {
        let put = write!(self.rows, "{text}{number}").ok();
        self.keep(put);
    }

    /// Appends the rows of records, as [`put_records`] does.
    pub fn put_records(&mut self, bytes: &[u8], most: usize) {
        let put = put_records(self.alloc, bytes, most, &mut self.rows);
        self.keep(put);
    }

    /// Appends the rows of a text, as [`put_text`] does.
    pub fn put_text(&mut self, bytes: &[u8]) {
        let put = put_text(bytes, &mut self.rows);
        self.keep(put);
    }

    /// Gives the case up, if something wasn't done.
    pub fn keep(&mut self, done: Option<()>) {
        if done.is_none() {
            self.is_whole = false;
        }
    }

    /// Gives the case up.
    pub fn give_up(&mut self) {
        self.is_whole = false;
    }

    /// Returns all that was appended, or `None` if the case was given up.
    pub fn rows(&self) -> Option<&str> {
        if self.is_whole {
            Some(self.rows.as_str())
        } else {
            None
        }
    }
}
