//! What a line says.
use std::alloc::Global;

/// What a line says.
#[derive(Drop)]
pub enum Line<'a> {
    /// Nothing: it is blank, or a remark.
    Remark,
    /// A name for bytes, which are kept.
    Named,
    /// A case: the words before the colon, and the bytes after it.
    Case(&'a str, Vec<u8>),
}

// Bytes that have a name.
#[derive(Drop)]
struct Named {
    name: String,
    bytes: Vec<u8>,
}

/// The names that lines gave to bytes. If two names are the same, the earlier one counts.
#[derive(Drop)]
pub struct Names {
    alloc: Global,
    names: Vec<Named>,
}

// Returns how often a piece repeats its bytes, and what says them.
fn counted(piece: &str) -> (u32, &str) {
    let Some((count, unit)) = piece.split_once('x') else {
        return (1, piece);
    };
    match count.parse::<u32>() {
        Ok(count) => (count, unit),
        Err(_) => (1, piece),
    }
}

impl Names {
    /// No names. Allocates nothing.
    pub fn new(alloc: Global) -> Names {
        Names {
            alloc,
            names: Vec::new(alloc),
        }
    }

    /// Returns what a line says, or `None` if it has none of the forms, names what has no name, or there is no memory for its bytes.
    pub fn read<'a>(&mut self, line: &'a str) -> Option<Line<'a>> {
        if line.is_empty() || line.starts_with('#') {
            return Some(Line::Remark);
        }
        if let Some(naming) = line.strip_prefix("let ") {
            let (name, pieces) = naming.split_once('=')?;
            self.keep(name.trim(), pieces)?;
            return Some(Line::Named);
        }
        let (words, pieces) = line.split_once(':')?;
        Some(Line::Case(words, self.bytes(pieces)?))
    }

    // Gives a name to the bytes of pieces.
    fn keep(&mut self, name: &str, pieces: &str) -> Option<()> {
        let bytes = self.bytes(pieces)?;
        let name = String::from_str(self.alloc, name).ok()?;
        self.names.push(Named { name, bytes }).ok()
    }

    // Returns the bytes that have a name.
    fn find(&self, name: &str) -> Option<&[u8]> {
        for named in &self.names {
            if named.name.as_str() == name {
                return Some(&named.bytes);
            }
        }
        None
    }

    // Returns the bytes of pieces.
    fn bytes(&self, pieces: &str) -> Option<Vec<u8>> {
        let mut bytes = Vec::new(self.alloc);
        for piece in pieces.split_whitespace() {
            self.add_piece(piece, &mut bytes)?;
        }
        Some(bytes)
    }

    // Appends the bytes of a piece.
    fn add_piece(&self, piece: &str, bytes: &mut Vec<u8>) -> Option<()> {
        let (count, unit) = counted(piece);
        for _ in 0..count {
            self.add_unit(unit, bytes)?;
        }
        Some(())
    }

    // Appends the bytes of a piece without a count.
    fn add_unit(&self, unit: &str, bytes: &mut Vec<u8>) -> Option<()> {
        if let Some(name) = unit.strip_prefix('$') {
            return bytes.extend_from_slice(self.find(name)?).ok();
        }
        if let Some(quoted) = unit.strip_prefix('\'') {
            let text = quoted.strip_suffix('\'')?;
            return bytes.extend_from_slice(text.as_bytes()).ok();
        }
        let decoded = hex::decode(self.alloc, unit).ok()?;
        bytes.extend_from_slice(&decoded).ok()
    }
}
