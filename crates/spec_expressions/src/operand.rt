//! Operands: how they are used, and when they must be in scope.

use ir_arena::handle::Handle;
use typing_layout::ir_types::key;

/// How an operand uses the global variable that it refers to.
#[derive(Clone, Copy, Debug)]
pub enum Usage {
    /// As the base of an access: the uses of the access count.
    Base,
    /// A load or another read.
    Read,
    /// It is written.
    Write,
    /// It is read and written, as one atomic operation.
    ReadWrite,
    /// A size query.
    Query,
    /// It is the image of an image atomic.
    Atomic,
}

/// When an operand must be in scope where it is used.
#[derive(Clone, Copy, Debug)]
pub enum Scoping {
    /// Always.
    Always,
    /// Under strict scope only.
    Strictly,
    /// At its own place: a loop's condition, after the continuing block.
    Apart,
}

/// An optional operand of an expression or of a statement.
#[derive(Clone, Copy, Debug)]
pub struct Slot {
    /// The expression.
    pub handle: Option<Handle<key::Expression>>,
    /// The use.
    pub usage: Usage,
    /// When it must be in scope.
    pub scoping: Scoping,
}
