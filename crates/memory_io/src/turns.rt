ghost use Rattle.std.specs.Prelude.{◌≡◌, ◌≤◌, ◌<◌, ◌+◌, Contains};
ghost use Rattle.memory_io.specs.Turns.{IsTurn};
ghost use Rattle.memory_io.specs.Fakes.{one_more};

/// What a call's number says about it.
pub(crate) enum Turn {
    /// The number is above the most: the call fails, and isn't recorded.
    Past,
    /// The number is listed: the call fails.
    Listed,
    /// Neither: the call may succeed.
    Free,
}

/// The calls of a fake, counted from 1: which fail, how many there may be, how many there were, and how many failed.
#[derive(Drop)]
pub(crate) struct Turns {
    pub failing: Vec<u64>,
    pub most: u32,
    pub made: u64,
    pub failed: u64,
}

impl Turns {
    /// No call so far.
    pub fn new(failing: Vec<u64>, most: u32) -> Turns
        ensures { result ≡ record { failing = failing; most = most; made = 0; failed = 0 } }
    {
        Turns {
            failing,
            most,
            made: 0,
            failed: 0,
        }
    }

    /// Counts one more call.
    pub fn next(&mut self) -> Turn
        ensures turn { IsTurn result self.old.failing.items self.old.most self.old.made }
        ensures failing { self.new.failing ≡ self.old.failing }
        ensures most { self.new.most ≡ self.old.most }
        ensures made { self.new.made ≡ one_more self.old.made }
        ensures failed { self.new.failed ≡ self.old.failed }
    {
        let before = self.made;
        self.made = self.made.saturating_add(1);
        if before >= self.most as u64 {
            return Turn::Past;
        }
        let number = before + 1;
        if self.failing.iter().any(|listed| *listed == number) {
            return Turn::Listed;
        }
        Turn::Free
    }

    /// Counts one more call that failed.
    pub fn fail(&mut self)
        ensures failing { self.new.failing ≡ self.old.failing }
        ensures most { self.new.most ≡ self.old.most }
        ensures made { self.new.made ≡ self.old.made }
        ensures failed { self.new.failed ≡ one_more self.old.failed }
    {
        self.failed = self.failed.saturating_add(1);
    }
}
