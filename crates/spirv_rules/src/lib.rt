//! The rules of SPIR-V on which it rests what a module means for a host, and which no rule of the IR sees: its version, how buffers
//! are laid out, of which types operands and results are. And of what is not translated that which names a module as a whole: its
//! stages, references to buffers.
#![tactic(auto)]

mod composites;
mod kinds;
mod layouts;
mod math;
mod memory;
mod numbers;
mod operands;
mod whole;

pub use whole::check_rules;
