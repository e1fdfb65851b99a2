//! What is known of a SPIR-V module's functions before they are translated: their order, how variables are used, which values outlive the
//! scope of their block.
#![tactic(auto)]

mod chains;
mod flow;
mod kept;
mod order;
mod paths;
mod uses;

pub use chains::{Part, constant_word, is_chain, is_debug, part_at, pointee};
pub use flow::{Flow, flow_of};
pub use kept::{Incoming, Kept};
pub use order::Order;
pub use paths::{PathPart, Paths};
pub use spirv_steps::{
    Block, Blocks, BreakIf, Case, CaseBody, Choice, FunctionBlocks, FunctionSteps, Scopes, Step,
    Steps,
};
pub use uses::{
    DIM_SUBPASS_DATA, FRAGMENT_PLACE, MESH_OUTPUTS, MESH_TASKS, SUBGROUP_NUMBERS, Use, Uses,
    is_atomic,
};
