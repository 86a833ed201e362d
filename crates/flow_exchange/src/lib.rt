//! The exchange program as one call: arguments, a source of bytes, two sinks, and a status.
//!
//! [`flow`] is what the program calls. Its contract is what the program promises: which journal `run` writes for the bytes of
//! the source, what `audit` says of the history that it reads, what `explain` finds of the first invalid entry of it, which text
//! `report` writes of it, which `checkpoint` its market has, which `statement` an account has in a journal, which entries `resume`
//! writes after a journal or a checkpoint, which command file `encode` makes of lines of JSON, what the run of a `sample` results
//! in, and when each status comes.
#![tactic(auto)]

mod audit;
mod checkpoint;
mod encode;
mod ending;
mod explain;
mod form;
pub mod laws;
mod report;
mod resume;
mod run;
mod sample;
mod sample_form;
mod statement;
mod statement_form;
mod top;

pub use exit_status::{INPUT_LIMIT, Status};
pub use form::Form;
pub use top::{flow, flow_limited};
