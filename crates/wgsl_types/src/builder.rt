// The interface through which lowering emits IR.

use ir_arena::handle::Handle;
use ir_arena::span::Span;
use ir_blocks::{Block, Statement};
use ir_flags::Capabilities;
use ir_items::{LocalVariable, Override};
use ir_kinds::PredeclaredType;
use ir_types::{Expression, IrType, key};
use wgsl_text::{Extent, WgslError};

/// The handle of a type in the module.
pub type TypeHandle = Handle<key::IrType>;

/// The handle of an expression in the current function, or of a global expression.
pub type ExpressionHandle = Handle<key::Expression>;

/// A predeclared struct type for ray queries.
#[derive(Clone, Copy, PartialEq, Eq)]
pub enum RayStruct {
    /// `RayDesc`.
    Descriptor,
    /// `RayIntersection`.
    Intersection,
    /// The array of a hit's vertex positions.
    Vertices,
}

/// The target that IR is emitted into. The first error is kept: after it nothing is emitted, and the handles returned are
/// placeholders.
pub trait Builder {
    /// Records an error, unless one was recorded before.
    fn fail(&mut self, error: WgslError);

    /// Whether an error was recorded.
    fn has_failed(&self) -> bool;

    /// Adds the type.
    fn insert(&mut self, ty: IrType, extent: Extent) -> TypeHandle;

    /// Adds an expression that an `Emit` statement has to cover.
    fn compute(&mut self, expression: Expression, extent: Extent) -> ExpressionHandle;

    /// Adds an expression that needs no `Emit`, or is the result of a statement.
    fn place(&mut self, expression: Expression, extent: Extent) -> ExpressionHandle;

    /// Adds a statement, after an `Emit` of the pending expressions.
    fn statement(&mut self, statement: Statement, extent: Extent);

    /// Opens a block.
    fn open(&mut self);

    /// Closes the innermost block.
    fn close(&mut self) -> Block;

    /// Adds a local variable; returns the pointer to it.
    fn local(&mut self, local: LocalVariable, extent: Extent) -> ExpressionHandle;

    /// Adds an override to the module; returns its index.
    fn overridable(&mut self, overridable: Override, extent: Extent) -> u32;

    /// Whether expressions are global and not in a function.
    fn is_global(&self) -> bool;

    /// Records that the module requires this capability.
    fn require(&mut self, capability: Capabilities);

    /// Sets this type as a predeclared result struct.
    fn predeclare(&mut self, of: PredeclaredType, ty: TypeHandle);

    /// Sets this type as a special type for ray queries.
    fn predeclare_rays(&mut self, of: RayStruct, ty: TypeHandle);
}

/// A placeholder, after an error.
pub fn no_type() -> TypeHandle {
    Handle::at(0)
}

/// A placeholder, after an error.
pub fn no_expression() -> ExpressionHandle {
    Handle::at(0)
}

/// The same span in the IR's form.
pub fn span_of(extent: Extent) -> Span {
    Span::new(extent.start, extent.end)
}
