//! The specification of a shader's expressions: definitions on mathematical values, with their laws.
//!
//! What the items of a module refer to by handles, one row for each kind, and when handles are valid. The types of
//! expressions, a file for each family, with the laws of typing ([`laws`]); which global expressions, constants and overrides
//! are valid, and which components make a composition ([`constant_laws`]); and the types that the rules of math functions
//! give in a module ([`ConclusionExt`]). The analysis of functions: the info of a function's expressions and its uses
//! of global variables; a function's uses, sampled pairs and requirements, by itself and over its call chains ([`call_laws`]);
//! non-uniform control flow, and what requires uniform control flow.
#![tactic(auto)]

pub mod call_laws;
mod conclusion;
pub mod constant_laws;
mod expression_info;
mod faults;
mod global_use;
mod item;
pub mod laws;
mod operand;
mod sampling;
mod target;
mod uniformity;

pub use conclusion::{ConclusionExt, MissingSpecialType};
pub use expression_info::ExpressionInfo;
pub use faults::TypingFault;
pub use global_use::GlobalUse;
pub use ir_items::ir_blocks::AtomicFunction;
pub use item::ItemKind;
pub use operand::{Scoping, Slot, Usage};
pub use sampling::{GlobalOrArgument, SamplingKey, SamplingPair};
pub use target::Target;
pub use typing_layout::{LiteralError, typing_forms};
pub use uniformity::{Uniformity, UniformityRequirements};
