//! Sources and sinks of bytes, with contracts that say what was read and written.
//!
//! The bytes that a [`Source`] has left and those that a [`Sink`] holds may be known content: then a
//! contract can speak of them. Each counts its faults, so that no call can blame a read or a write
//! that did not fail. [`StdSource`] and [`StdSink`] wrap a reader and a writer of the system. Their
//! content is unknown, as nothing says what a file or a pipe holds; but what is read came from the
//! reader, and what is written arrives at the writer, each byte once and in its order.
//!
//! [`read_all`] takes all bytes of a source up to a limit, and a [`Window`] holds a part of them at a
//! time; [`Window::read_past`] reads past it into a vector.
//!
//! A read or a write costs as much as the bytes that it moves. Only [`read_all`], [`Window::new`] and
//! [`Window::read_past`] allocate.
#![tactic(auto)]

mod behind;
mod block;
pub mod laws;
mod sink;
mod source;
mod standard;
mod whole;
mod window;

pub use out_of_memory::Memory;
pub use sink::{Sink, WriteFailed};
pub use source::{ReadFailed, Source};
pub use standard::{StdSink, StdSource};
pub use whole::{ReadAllFault, WholeInput, read_all};
pub use window::{Filled, InputEnd, Window};
