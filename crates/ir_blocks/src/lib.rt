//! Statements and blocks: the methods of `Block`, and the returns that complete a body. Re-exports the
//! types and the expressions.
#![tactic(auto)]

mod blocks;
mod kept;
pub mod laws;
mod operations;
mod returns;
mod runs;
mod span_iter;
mod statements;
mod terminator;

pub use ir_types;
pub use ir_types::{
    ArraySize, CooperativeData, Expression, ImageQuery, IrType, SampleLevel, StructMember,
    TypeInner, ir_arena, key,
};
pub use operations::{AtomicFunction, GatherMode, RayPipelineFunction, RayQueryFunction};
pub use returns::{ensure_block_returns, put_returns, reserve_returns};
pub use span_iter::{SpanIntoIter, SpanIter, SpanIterMut};
pub use statements::{Block, Statement, SwitchCase};
