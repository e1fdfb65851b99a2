//! The error type of validating calls.

use crate::with_span::WithSpan;
use std::alloc::{AllocError, AllocFailed};

/// Why a validating call fails: out of memory, or the input is invalid.
#[derive(PartialEq, Debug, Drop)]
pub enum Refusal<E> {
    /// An allocation failed.
    Memory(AllocError),
    /// The input breaks a rule.
    Fault(WithSpan<E>),
}

impl<E> From<AllocError> for Refusal<E> {
    ghost use Rattle.std.specs.Prelude.{◌≡◌};
    ghost use Rattle.ir_types.specs.declared.refusal.Refusal.TheVariants.{Memory};

    ghost from_gives = { λ e r. r ≡ Memory e };

    fn from(error: AllocError) -> Self {
        Refusal::Memory(error)
    }
}

impl<E> From<WithSpan<E>> for Refusal<E> {
    ghost use Rattle.std.specs.Prelude.{◌≡◌};
    ghost use Rattle.ir_types.specs.declared.refusal.Refusal.TheVariants.{Fault};

    ghost from_gives = { λ e r. r ≡ Fault e };

    fn from(error: WithSpan<E>) -> Self {
        Refusal::Fault(error)
    }
}

impl<T: Drop, E> From<AllocFailed<T>> for Refusal<E> {
    ghost use Rattle.std.specs.Prelude.{◌≡◌, alloc_error};
    ghost use Rattle.ir_types.specs.declared.refusal.Refusal.TheVariants.{Memory};

    ghost from_gives = { λ _ r. r ≡ Memory alloc_error };

    /// Out of memory; the value that was not added is dropped.
    fn from(_refused: AllocFailed<T>) -> Self {
        Refusal::Memory(AllocError)
    }
}
