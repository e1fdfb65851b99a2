//! From the blocks of SPIR-V functions with their merges to what is done in order: a flat list of steps, with the scope of
//! each block.
#![tactic(auto)]

mod blocks;
mod meanings;
mod scopes;
mod steps;
mod switches;
mod walk;

pub use blocks::{Block, Blocks, FunctionBlocks};
pub use scopes::Scopes;
pub use steps::{BreakIf, Case, CaseBody, Choice, FunctionSteps, Step};
pub use walk::{Steps, steps_of};
