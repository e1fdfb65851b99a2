//! Where an instruction of SPIR-V comes from: the line of its source, as the module says it, or else its place in the module.
#![tactic(auto)]

mod position;
mod said;

pub use position::{Line, Position, error_text, position_in, position_of};
