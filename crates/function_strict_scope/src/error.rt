//! Why a walk over a body stops.

use ir_arena::handle::Handle;
use ir_types::key;
use std::alloc::AllocError;

/// Why a walk over a body stops: out of memory, or the fault of a statement. It is small because it is returned for each statement, which
/// an error of functions is not.
#[derive(Clone, Copy)]
pub enum StrictError {
    /// Out of memory.
    Memory(AllocError),
    /// An operand is not in scope.
    Unknown(Handle<key::Expression>),
    /// An argument of a call is not in scope.
    UnknownArgument {
        /// The function.
        function: Handle<key::Function>,
        /// The index of the argument.
        index: usize,
    },
    /// An introduced expression is already in scope. This occurs only where the scope check fails.
    Known(Handle<key::Expression>),
    /// The result of a `Proceed` or of a ballot has another kind.
    OtherAnswer(Handle<key::Expression>),
}

impl From<AllocError> for StrictError {
    ghost use Rattle.std.specs.Prelude.{◌≡◌};
    ghost use Rattle.function_strict_scope.specs.declared.error.StrictError.TheVariants.{Memory};

    ghost from_gives = { λ e r. r ≡ Memory e };

    fn from(error: AllocError) -> Self {
        StrictError::Memory(error)
    }
}
