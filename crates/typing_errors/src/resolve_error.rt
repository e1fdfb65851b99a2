//! Resolve errors.

ghost use Rattle.std.specs.Prelude.{◌≡◌, Some, IfOk};
ghost use Rattle.typing_errors.specs.Answers.{fault_of};

use ir_arena::handle::Handle;
use ir_types::key;
use spec_expressions::{MissingSpecialType, TypingFault};
use std::alloc::{AllocError, Global};
use thiserror::Error;

/// Why an expression has no type (naga's `ResolveError`). The messages are for people.
#[derive(Clone, Debug, PartialEq, Drop, Error)]
pub enum ResolveError {
    /// The index is out of bounds.
    #[error("index {index} is out of bounds for expression {expr:?}")]
    OutOfBoundsIndex {
        /// The base expression.
        expr: Handle<key::Expression>,
        /// The index, from 0.
        index: u32,
    },
    /// The base can't be indexed.
    #[error("expression {expr:?} cannot be accessed (by a dynamic index: {indexed})")]
    InvalidAccess {
        /// The base expression.
        expr: Handle<key::Expression>,
        /// Whether the access is dynamic (`Access`, not `AccessIndex`).
        indexed: bool,
    },
    /// The type can't be indexed further. Never returned.
    #[error("type {ty:?} cannot be accessed (by a dynamic index: {indexed})")]
    InvalidSubAccess {
        /// The type.
        ty: Handle<key::IrType>,
        /// Whether the access is dynamic.
        indexed: bool,
    },
    /// The operand of a splat is no scalar.
    #[error("expression {0:?} is not a scalar")]
    InvalidScalar(Handle<key::Expression>),
    /// The operand of a swizzle is no vector.
    #[error("expression {0:?} is not a vector")]
    InvalidVector(Handle<key::Expression>),
    /// The pointer of a load does not point to a loadable type.
    #[error("expression {0:?} is not a pointer that can be loaded")]
    InvalidPointer(Handle<key::Expression>),
    /// The operand of a sample, load or query is no image that allows it.
    #[error("expression {0:?} is not an image that supports the operation")]
    InvalidImage(Handle<key::Expression>),
    /// There is no function of this name. Never returned.
    #[error("function {name} is not defined")]
    FunctionNotDefined {
        /// The name.
        name: String,
    },
    /// The called function has no result.
    #[error("the function has no result")]
    FunctionReturnsVoid,
    /// The operation does not take these operand types.
    #[error("incompatible operands: {0}")]
    IncompatibleOperands(String),
    /// The function has no argument of this index.
    #[error("function argument {0} does not exist")]
    FunctionArgumentNotFound(u32),
    /// The module lacks the special type of the expression's result.
    #[error("the special type for the expression is not registered in the module")]
    MissingSpecialType,
    /// No overload of the built-in function accepts these arguments, or there are too many or too few.
    #[error("invalid arguments of a built-in function: {0}")]
    BuiltinArgumentsInvalid(String),
}

/// Why there is no type to answer.
#[derive(Debug, Drop)]
pub enum ResolveRefusal {
    /// Out of memory.
    Memory(AllocError),
    /// The expression has no type.
    Fault(ResolveError),
}

impl From<MissingSpecialType> for ResolveError {
    ghost use Rattle.std.specs.Prelude.{◌≡◌};
    ghost use Rattle.typing_errors.specs.declared.resolve_error.ResolveError.TheVariants.{MissingSpecialType};

    ghost from_gives = { λ _ r. r ≡ MissingSpecialType };

    fn from(_missing: MissingSpecialType) -> Self {
        ResolveError::MissingSpecialType
    }
}

impl From<AllocError> for ResolveRefusal {
    ghost use Rattle.std.specs.Prelude.{◌≡◌};
    ghost use Rattle.typing_errors.specs.declared.resolve_error.ResolveRefusal.TheVariants.{Memory};

    ghost from_gives = { λ e r. r ≡ Memory e };

    fn from(error: AllocError) -> Self {
        ResolveRefusal::Memory(error)
    }
}

/// The error for a fault, with a message if it has one. The error is out of memory.
pub fn error_of(alloc: Global, fault: TypingFault) -> Result<ResolveError, AllocError>
    ensures { IfOk result (λ e. fault_of e ≡ Some fault) }
{
    match fault {
        TypingFault::OutOfBoundsIndex { expr, index } => {
            Ok(ResolveError::OutOfBoundsIndex { expr, index })
        }
        TypingFault::InvalidAccess { expr, indexed } => {
            Ok(ResolveError::InvalidAccess { expr, indexed })
        }
        TypingFault::InvalidScalar(expr) => Ok(ResolveError::InvalidScalar(expr)),
        TypingFault::InvalidVector(expr) => Ok(ResolveError::InvalidVector(expr)),
        TypingFault::InvalidPointer(expr) => Ok(ResolveError::InvalidPointer(expr)),
        TypingFault::InvalidImage(expr) => Ok(ResolveError::InvalidImage(expr)),
        TypingFault::FunctionReturnsVoid => Ok(ResolveError::FunctionReturnsVoid),
        TypingFault::IncompatibleOperands => {
            let text = String::from_str(alloc, "the operation does not take their types")?;
            Ok(ResolveError::IncompatibleOperands(text))
        }
        TypingFault::FunctionArgumentNotFound(number) => {
            Ok(ResolveError::FunctionArgumentNotFound(number))
        }
        TypingFault::MissingSpecialType => Ok(ResolveError::MissingSpecialType),
        TypingFault::BuiltinArgumentsInvalid => {
            let text = String::from_str(alloc, "the function has no rule for their types")?;
            Ok(ResolveError::BuiltinArgumentsInvalid(text))
        }
    }
}
