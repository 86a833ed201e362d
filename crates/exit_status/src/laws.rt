//! What holds of statuses. Each law is the contract of a function that does nothing.
ghost use Rattle.std.specs.Prelude.{◌≡◌, ◌↔◌, IsTrue};

use crate::Status;

/// Two statuses are equal in a test exactly if they are the same.
pub fn equal_statuses()
    ensures { (a b : Status) → IsTrue (⟦<Status as PartialEq>⟧.eq a b) ↔ (a ≡ b) }
{}
