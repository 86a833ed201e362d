//! Out of memory: one fault, which all crates that allocate share.
#![tactic(auto)]

use std::alloc::AllocError;

/// Out of memory: an allocation failed. The call changed nothing.
#[derive(Clone, Copy, Debug, PartialEq, Eq)]
pub struct Memory;

impl From<AllocError> for Memory {
    fn from(_error: AllocError) -> Memory {
        Memory
    }
}
