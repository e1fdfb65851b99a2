// Operands: the values of expressions.

use crate::declared::FunctionEntry;
use ir_arena::handle::Handle;
use ir_kinds::{AddressSpace, Literal};
use wgsl_builtins::{FunctionWord, TypeWord};
use wgsl_text::Extent;
use wgsl_types::{ExpressionHandle, Shape};

/// The value of an expression. IR expressions are referred to by index here.
#[derive(Clone, Copy)]
pub enum Value {
    /// The call of a function without a result; or a placeholder after an error.
    Nothing,
    /// A constant scalar.
    Literal(Literal),
    /// A composite constant: its index in the store, and its type.
    Known(u32, Shape),
    /// An override, by its index, with this type.
    Override(u32, Shape),
    /// A run-time value of this type.
    Computed(u32, Shape),
    /// A reference: the pointer, the store type, and the address space.
    Place(u32, Shape, AddressSpace),
    /// A type.
    Type(Shape),
    /// A type generator, which takes template arguments or infers them from a constructor's arguments.
    Maker(TypeWord),
    /// `bitcast` to a type.
    Bitcast(Shape),
    /// `coopLoad`, or `coopLoadT` of rows, of a type.
    CooperativeLoad(Shape, bool),
    /// An undeclared identifier.
    Word(u32),
    /// A function of the module.
    Function(FunctionEntry),
    /// A built-in function.
    BuiltIn(FunctionWord),
    /// Between the operands of `&&` or `||`: the local variable of the result.
    Pending(u32),
    /// Between the operands of `&&` or `||` if the first operand is constant, or if both are part of an override's value.
    PendingLiteral,
}

/// An operand: a value with its span.
#[derive(Clone, Copy)]
pub struct Operand {
    /// The value.
    pub value: Value,
    /// Its span.
    pub extent: Extent,
}

impl Operand {
    /// A placeholder.
    pub const NOTHING: Operand = Operand {
        value: Value::Nothing,
        extent: Extent::NONE,
    };

    /// A run-time value of a type.
    pub fn computed(value: u32, shape: Shape, extent: Extent) -> Operand {
        Operand {
            value: Value::Computed(value, shape),
            extent,
        }
    }
}

/// The handle of the expression with this index.
pub fn handle_of(number: u32) -> ExpressionHandle {
    let place = number.min(4_294_967_294);
    Handle::at(place as usize)
}

/// The index of an expression.
pub fn number_of(handle: ExpressionHandle) -> u32 {
    u32::try_from(handle.index()).unwrap_or(u32::MAX)
}
