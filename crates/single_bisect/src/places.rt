ghost use Rattle.std.specs.Prelude.{◌≡◌, ℕ, ℤ, Bool, ◌+◌, ◌-◌, ◌^◌, ◌<◌};
ghost use Rattle.single_bisect.specs.Places.{SameTest};

/// A question with the answer yes or no at each place, and a count of how often it was asked.
///
/// The answer at a place doesn't depend on what was asked before. Any place may be asked, also one outside the range in
/// which a caller searches. A type that can answer only within a range first clamps the place to it, as by
/// `place.clamp(first, last)`, and its test says so too: outside, it answers as at the nearer end. So the test stays
/// one function of the place.
pub trait Probe {
    /// The answer at each place.
    ghost test: { Self → ℤ → Bool };

    /// How many questions were answered so far.
    ghost asked: { Self → ℕ };

    /// Answers the question at `place`, which may be any number. Costs one ask.
    fn at(&mut self, place: i64) -> bool
        requires asks_left { asked self.old < 2 ^ 64 - 1 }
        ensures answer { result ≡ test self.old place }
        ensures test_stays { SameTest (test self.new) (test self.old) }
        ensures counted { asked self.new ≡ asked self.old + 1 };
}
