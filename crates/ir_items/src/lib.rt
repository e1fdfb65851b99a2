//! The items of the IR: constants, overrides, variables, special types, diagnostic filters, functions, entry points and the
//! module. Re-exports statements, blocks, types and expressions.
//!
//! Also the helpers of naga's `proc`, under its names: the walks along the handles of an arena (from a filter to its parent, from
//! an access to its base, from a composition to its components; they require that each handle is in its arena and refers to an
//! earlier index), the emitter, which makes the `Emit` statements of a function under construction, and the returns that are added
//! to bodies.
#![tactic(auto)]

mod bases;
mod emitter;
pub mod emitter_laws;
mod entries;
mod filters;
mod flatten;
mod functions;
mod globals;
pub mod laws;
mod module;
mod module_lists;
mod returns;
mod severity;
mod special;

pub use bases::FunctionExt;
pub use emitter::Emitter;
pub use entries::{EntryPoint, MeshStageInfo};
pub use filters::{DiagnosticFilter, DiagnosticFilterNode, FilterableTriggeringRule};
pub use flatten::{FlattenCompose, flatten_compose};
pub use functions::{Function, FunctionArgument, FunctionResult, LocalVariable};
pub use globals::{Constant, GlobalVariable, Override};
pub use ir_blocks;
pub use ir_blocks::ir_types::{
    ArraySize, CooperativeData, Expression, ImageQuery, IrType, SampleLevel, StructMember,
    TypeInner, key,
};
pub use ir_blocks::{
    AtomicFunction, Block, GatherMode, RayPipelineFunction, RayQueryFunction, SpanIntoIter,
    SpanIter, SpanIterMut, Statement, SwitchCase, ensure_block_returns,
};
pub use module::{GlobalCtx, Module};
pub use severity::DiagnosticFilterNodeExt;
pub use special::SpecialTypes;
