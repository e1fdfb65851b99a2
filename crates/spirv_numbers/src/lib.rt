//! The numbers of SPIR-V: the words of a module out of its bytes, lists of numbers by a place, and the standard's names of
//! opcodes and of the enums that are read.
#![tactic(auto)]

mod groups;
pub mod names;
pub mod numbers;
mod opcodes;
pub mod ops;
mod words;

pub use groups::Groups;
pub use opcodes::{Results, results_of};
pub use words::{ByteOrder, MAX_LEN, WordsError, read_words};
