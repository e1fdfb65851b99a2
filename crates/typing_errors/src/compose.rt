//! Composition errors.

use ir_arena::handle::Handle;
use ir_types::key;
use thiserror::Error;

/// An error of a `Compose` (naga's `ComposeError`).
#[derive(Clone, Copy, PartialEq, Debug, Error)]
pub enum ComposeError {
    /// The type can't be composed (naga's `Type`).
    #[error("type {0:?} cannot be composed")]
    Typing(Handle<key::IrType>),
    /// Wrong number of components.
    #[error("the composition requires {expected} components, but {given} are provided")]
    ComponentCount {
        /// The number given.
        given: u32,
        /// The number expected.
        expected: u32,
    },
    /// A component has a wrong type.
    #[error("component {index} has the wrong type")]
    ComponentType {
        /// The component, counted from 0.
        index: u32,
    },
}
