ghost use Rattle.std.specs.Prelude.{◌≡◌, ◌≤◌, ◌↔◌, IsTrue, if◌then◌else◌};
ghost use Rattle.memory_io.specs.Fakes.{NextIsListed, one_more};

/// The calls of a fake: which fail, by their numbers from 1, how many there were, and how many of them failed. A call whose number is
/// above the greatest u64 doesn't fail.
#[derive(Drop)]
pub struct Calls {
    pub failing: Vec<u64>,
    pub made: u64,
    pub failed: u64,
}

impl Calls {
    /// No call so far.
    pub fn new(failing: Vec<u64>) -> Calls
        ensures failing { result.failing ≡ failing }
        ensures made { result.made ≡ 0 }
        ensures failed { result.failed ≡ 0 }
    {
        Calls {
            failing,
            made: 0,
            failed: 0,
        }
    }

    /// Counts one more call, and returns whether it fails. Looks through the whole list.
    pub fn next_fails(&mut self) -> bool
        ensures fails { IsTrue result ↔ NextIsListed self.old.failing.items self.old.made }
        ensures failing { self.new.failing ≡ self.old.failing }
        ensures made { self.new.made ≡ one_more self.old.made }
        ensures later { self.old.failed ≤ self.new.failed }
        ensures failed { self.new.failed ≡ (if result then one_more self.old.failed else self.old.failed) }
    {
        let fails = is_next_listed(&self.failing, self.made);
        self.made = self.made.saturating_add(1);
        if fails {
            self.failed = self.failed.saturating_add(1);
        }
        fails
    }
}

// Returns whether the number after this one is in the list.
fn is_next_listed(failing: &[u64], made: u64) -> bool
    ensures { IsTrue result ↔ NextIsListed failing.now made }
{
    let Some(number) = made.checked_add(1) else {
        return false;
    };
    failing.iter().any(|listed| *listed == number)
}
