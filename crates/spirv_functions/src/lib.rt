//! Translates the blocks and instructions of a SPIR-V function, generic over the function under construction.
#![tactic(auto)]

mod assembly;
mod ballots;
mod clusters;
mod extended;
mod groups;
mod instructions;
mod mesh;
mod rays;

pub use assembly::assemble;
