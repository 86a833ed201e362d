//! What a case asks for.
use std::alloc::Global;

// The words of the command line, and what the options say.
#[derive(Drop)]
pub(crate) struct Asked {
    pub(crate) words: Vec<String>,
    pub(crate) limit: Option<u64>,
    pub(crate) piece: u64,
    // The read that fails, counted from 1; 0 if none does.
    pub(crate) read: u64,
    // The write to the output that fails, counted from 1; 0 if none does.
    pub(crate) out: u64,
    // The write to standard error that fails, counted from 1; 0 if none does.
    pub(crate) notes: u64,
    // How many of the first reads fail, each in turn; 0 if none does.
    pub(crate) reads: u64,
    // How many of the first writes to the output fail, each in turn; 0 if none does.
    pub(crate) outs: u64,
    pub(crate) rows: u64,
    // Whether the number of bytes left in the source is printed.
    pub(crate) left: bool,
}

impl Asked {
    // No words, and the defaults of all options.
    pub(crate) fn new(alloc: Global) -> Asked {
        Asked {
            words: Vec::new(alloc),
            limit: None,
            piece: 65_536,
            read: 0,
            out: 0,
            notes: 0,
            reads: 0,
            outs: 0,
            rows: 64,
            left: false,
        }
    }

    // Takes a word, or sets what an option says.
    pub(crate) fn add(&mut self, alloc: Global, word: &str) -> Option<()> {
        match word.split_once('=') {
            Some((name, number)) => self.set(name, number.parse().ok()?),
            None => self.add_word(alloc, word),
        }
    }

    fn add_word(&mut self, alloc: Global, word: &str) -> Option<()> {
        let text = if word == "''" { "" } else { word };
        let word = String::from_str(alloc, text).ok()?;
        self.words.push(word).ok()
    }

    fn set(&mut self, name: &str, number: u64) -> Option<()> {
        match name {
            "limit" => self.limit = Some(number),
            "piece" => self.piece = number,
            "read" => self.read = number,
            "out" => self.out = number,
            "notes" => self.notes = number,
            "reads" => self.reads = number,
            "outs" => self.outs = number,
            "rows" => self.rows = number,
            "left" => self.left = number > 0,
            _ => return None,
        }
        Some(())
    }
}
