//! Atomic errors.

use ir_arena::handle::Handle;
use ir_flags::Capabilities;
use ir_kinds::AddressSpace;
use ir_types::key;
use spec_expressions::AtomicFunction;
use thiserror::Error;

/// An error of an atomic statement (naga's `AtomicError`).
#[derive(Clone, Copy, PartialEq, Debug, Error)]
pub enum AtomicError {
    /// The pointer is not a pointer to an atomic.
    #[error("pointer {0:?} does not point to an atomic")]
    InvalidPointer(Handle<key::Expression>),
    /// The address space doesn't allow the operation.
    #[error("address space {0:?} is not supported")]
    InvalidAddressSpace(AddressSpace),
    /// The operand has a wrong type.
    #[error("operand {0:?} has the wrong type")]
    InvalidOperand(Handle<key::Expression>),
    /// The atomic doesn't allow the operation.
    #[error("operation {0:?} is not supported")]
    InvalidOperator(AtomicFunction),
    /// The result is no `AtomicResult`.
    #[error("result expression {0:?} is not an `AtomicResult`")]
    InvalidResultExpression(Handle<key::Expression>),
    /// The `AtomicResult` has `comparison` set, and the operation is no compare-exchange.
    #[error("result expression {0:?} is that of a compare-exchange")]
    ResultExpressionExchange(Handle<key::Expression>),
    /// The `AtomicResult` does not have `comparison` set, and the operation is a compare-exchange.
    #[error("result expression {0:?} is not that of a compare-exchange")]
    ResultExpressionNotExchange(Handle<key::Expression>),
    /// The result has a wrong type.
    #[error("result expression {0:?} has another type than the statement's result")]
    ResultTypeMismatch(Handle<key::Expression>),
    /// An exchange has no result.
    #[error("an exchange must have a result")]
    MissingReturnValue,
    /// The module lacks a capability.
    #[error("capability {0:?} is required")]
    MissingCapability(Capabilities),
    /// Another atomic statement already uses this result expression.
    #[error("result expression {0:?} is already the result of another atomic statement")]
    ResultAlreadyPopulated(Handle<key::Expression>),
}
