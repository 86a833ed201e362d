//! What the program's canonical rule makes of a market: laws that need both, and that no auditor needs.
//!
//! Each function of [`laws`] is a law and does nothing when it runs: every command is served by the canonical rule, and
//! records have exactly one canonical journal, which is valid. The worked commands and batches of the proofs are here too,
//! since their batches have canonical outcomes.
#![tactic(auto)]

pub mod laws;
