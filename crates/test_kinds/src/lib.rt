//! Calls of plain types, sets of flags, overload sets and errors.
#![tactic(auto)]

mod asked;
mod faults;
mod literals;
mod overloads;
mod scalars;
mod sets;
mod types;
mod uses;
mod words;

pub use asked::is_met;
pub use faults::{of_fault, of_refusal};
pub use overloads::every_call;
use std::io;

/// Calls each public function of the plain types and the sets of flags, and prints the results.
pub fn print_all(rt: &impl Print) -> io::Result<()> {
    literals::run(rt)?;
    scalars::run(rt)?;
    words::run(rt)?;
    sets::run(rt)
}
