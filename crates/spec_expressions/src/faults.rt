//! Type errors of expressions.

use ir_arena::handle::Handle;
use typing_layout::ir_types::key;

/// Why an expression has no type, as plain data without a message.
#[derive(Clone, Copy, Debug)]
pub enum TypingFault {
    /// The index is out of bounds.
    OutOfBoundsIndex {
        /// The base expression.
        expr: Handle<key::Expression>,
        /// The index, from 0.
        index: u32,
    },
    /// The base can't be indexed.
    InvalidAccess {
        /// The base expression.
        expr: Handle<key::Expression>,
        /// Whether the access is dynamic (`Access`, not `AccessIndex`).
        indexed: bool,
    },
    /// The operand of a splat is no scalar.
    InvalidScalar(Handle<key::Expression>),
    /// The operand of a swizzle is no vector.
    InvalidVector(Handle<key::Expression>),
    /// The pointer of a load does not point to a loadable type.
    InvalidPointer(Handle<key::Expression>),
    /// The operand of a sample, load or query is no image that allows it.
    InvalidImage(Handle<key::Expression>),
    /// The called function has no result.
    FunctionReturnsVoid,
    /// The operation does not take these operand types.
    IncompatibleOperands,
    /// The function has no argument of this index.
    FunctionArgumentNotFound(u32),
    /// The module lacks the special type of the expression's result.
    MissingSpecialType,
    /// No overload of the built-in function accepts these arguments, or there are too many or too few.
    BuiltinArgumentsInvalid,
}
