//! Local variable errors.

use ir_arena::handle::Handle;
use ir_types::key;
use thiserror::Error;

/// An error of a local variable of a function (naga's `LocalVariableError`).
#[derive(Clone, Copy, PartialEq, Debug, Error)]
pub enum LocalVariableError {
    /// No variable may have this type.
    #[error("type {0:?} cannot be the type of a local variable")]
    InvalidType(Handle<key::IrType>),
    /// The initializer has another type than the variable.
    #[error("the initializer has another type than the variable")]
    InitializerType,
    /// The initializer is neither const nor override.
    #[error("the initializer is not a const-expression or an override-expression")]
    NonConstOrOverrideInitializer,
}
