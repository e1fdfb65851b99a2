//! A program's input and output.
//!
//! A [`Source`] wraps a reader and a [`Sink`] wraps a writer. Each has a flag that a failed call sets and nothing
//! clears, so that a contract can tie an I/O error to it: the flag is a private field, and
//! a single method sets it.
//!
//! With [`ReadCall`] and [`WriteCall`] a contract can state which calls were made, and their results.
#![tactic(auto)]

mod call;
mod sink;
mod source;

pub use call::{ReadCall, WriteCall};
pub use sink::{Sink, WriteFailed};
pub use source::{MAX_CALLS, Source, TakeError};
