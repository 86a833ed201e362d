//! Tests of a disk over a real file (`disk_edge`), and of the journal on one (`journal_disk`). Disks in memory are cases of `kept_checks`.
//!
//! A crate with tests is proved twice, so these have a crate of their own, which no other depends on.
#![tactic(auto)]

#[cfg(test)]
mod files;
#[cfg(test)]
mod keeping;
