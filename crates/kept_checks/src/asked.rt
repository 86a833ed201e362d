//! What a case asks for.

// What the options say. The number of a call is 0 if none fails.
#[derive(Clone, Copy)]
pub(crate) struct Asked {
    pub(crate) disk: usize,
    pub(crate) limit: Option<u64>,
    pub(crate) read: u64,
    pub(crate) out: u64,
    pub(crate) notes: u64,
    pub(crate) fail: u64,
    pub(crate) calls: u32,
    pub(crate) fails: u64,
    pub(crate) stops: bool,
    pub(crate) lines: bool,
}

impl Asked {
    // The defaults of all options.
    pub(crate) fn new() -> Asked {
        Asked {
            disk: 0,
            limit: None,
            read: 0,
            out: 0,
            notes: 0,
            fail: 0,
            calls: 1000,
            fails: 0,
            stops: false,
            lines: false,
        }
    }

    // Sets what an option says.
    pub(crate) fn set(&mut self, option: &str) -> Option<()> {
        let (name, value) = option.split_once('=')?;
        let number: u32 = value.parse().ok()?;
        match name {
            "disk" => self.disk = number as usize,
            "limit" => self.limit = Some(number as u64),
            "read" => self.read = number as u64,
            "out" => self.out = number as u64,
            "notes" => self.notes = number as u64,
            "fail" => self.fail = number as u64,
            "calls" => self.calls = number,
            "fails" => self.fails = number as u64,
            "stops" => self.stops = number > 0,
            "lines" => self.lines = number > 0,
            _ => return None,
        }
        Some(())
    }
}
