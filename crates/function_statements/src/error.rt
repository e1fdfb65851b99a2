//! Why a walk over a body stops.

use std::alloc::AllocError;
use typing_errors::FunctionError;

/// Out of memory, or the error of a statement.
#[derive(Drop)]
pub enum StatementError {
    /// Out of memory.
    Memory(AllocError),
    /// The error.
    Fault(FunctionError),
}
