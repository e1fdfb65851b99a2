//! The info of an expression.

use crate::uniformity::Uniformity;
use ir_arena::handle::Handle;
use typing_layout::ir_types::key;
use typing_layout::typing_forms::TypeResolution;

/// The info of an expression of a function (naga's `ExpressionInfo`).
#[derive(Debug, Drop)]
pub struct ExpressionInfo {
    /// Its uniformity: the source of non-uniformity, and its requirements.
    pub uniformity: Uniformity,
    /// Its reference count: at how many places it is an operand of an expression or statement. It saturates at `usize::MAX`.
    pub ref_count: usize,
    /// The global variable that it is, or at the root of its access chain, if any.
    pub assignable_global: Option<Handle<key::GlobalVariable>>,
    /// Its type.
    pub ty: TypeResolution,
}
