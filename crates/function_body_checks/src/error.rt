//! Why a walk over a body stops.

use ir_arena::handle::Handle;
use ir_types::key;
use std::alloc::AllocError;

/// Why a walk over a body stops: out of memory, or the fault of a statement. It is small because it is returned for each statement, which
/// an error of functions is not.
#[derive(Clone, Copy)]
pub enum ScopeError {
    /// Out of memory.
    Memory(AllocError),
    /// An operand is not in scope.
    Unknown(Handle<key::Expression>),
    /// An argument of a call is not in scope.
    UnknownArgument {
        /// The function.
        function: Handle<key::Function>,
        /// The index of the argument.
        index: usize,
    },
    /// An introduced expression is already in scope.
    Known(Handle<key::Expression>),
    /// The result of a call is already in scope.
    KnownResult {
        /// The function that is called.
        function: Handle<key::Function>,
        /// The expression.
        answer: Handle<key::Expression>,
    },
    /// A call has the result of another statement, or has one although none is required.
    Answered {
        /// The function that is called.
        function: Handle<key::Function>,
        /// The expression.
        answer: Handle<key::Expression>,
    },
    /// The same for an atomic operation.
    AnsweredAtomic(Handle<key::Expression>),
}

impl From<AllocError> for ScopeError {
    ghost use Rattle.std.specs.Prelude.{◌≡◌};
    ghost use Rattle.function_body_checks.specs.declared.error.ScopeError.TheVariants.{Memory};

    ghost from_gives = { λ e r. r ≡ Memory e };

    fn from(error: AllocError) -> Self {
        ScopeError::Memory(error)
    }
}
