//! The error of a module.

use function_entry_checks::EntryPointError;
use ir_arena::handle::Handle;
use ir_places::Trail;
use ir_types::key;
use module_steps::{InvalidGlobalVariable, ModuleError};
use std::fmt::{self, Display};
use thiserror::Error;
use typing_errors::FunctionError;

/// An invalid function (naga's `ValidationError::Function`).
#[derive(Clone, PartialEq, Debug, Drop, Error)]
#[error("function {function:?} is invalid: {error}")]
pub struct InvalidFunction {
    /// The function.
    pub function: Handle<key::Function>,
    /// The error.
    pub error: FunctionError,
    /// Its place in the body, if it is the error of a statement; lost if it is not, or if a step could not be recorded for lack
    /// of memory.
    pub trail: Trail,
}

/// An invalid entry point (naga's `ValidationError::EntryPoint`).
#[derive(Clone, PartialEq, Debug, Drop, Error)]
#[error("entry point {index} is invalid: {error}")]
pub struct InvalidEntryPoint {
    /// Its index among the module's entry points.
    pub index: usize,
    /// The error.
    pub error: EntryPointError,
    /// Its place in the body of its function, if it is the error of a statement; lost if it is not, or if a step could not be
    /// recorded for lack of memory.
    pub trail: Trail,
}

/// The error of a module (naga's `ValidationError`): the first failing step, at the first item that fails it.
#[derive(Clone, PartialEq, Debug, Drop, Error)]
pub enum ValidationError {
    /// Handles are out of order, or a step up to overrides fails.
    #[error("{0}")]
    Module(ModuleError),
    /// A global variable is invalid.
    #[error("{0}")]
    GlobalVariable(InvalidGlobalVariable),
    /// A function is invalid.
    #[error("{0}")]
    Function(InvalidFunction),
    /// An entry point is invalid.
    #[error("{0}")]
    EntryPoint(InvalidEntryPoint),
}

/// The error of the invalid item in `Debug` form, by name and with its fields, where [`ValidationError`] displays its message.
#[derive(Clone, Copy)]
pub struct Named<'a>(pub &'a ValidationError);

// The error of a step up to overrides, by name.
fn write_early<W: fmt::Write>(f: &mut fmt::Formatter<W>, error: &ModuleError) -> fmt::Result {
    match error {
        ModuleError::InvalidHandle(error) => write!(f, "{error:?}"),
        ModuleError::Layouter(error) => write!(f, "{:?}", error.inner),
        ModuleError::Typing(error) => write!(f, "{:?}", error.error),
        ModuleError::ConstExpression(error) => write!(f, "{:?}", error.error),
        ModuleError::Constant(error) => write!(f, "{:?}", error.error),
        ModuleError::Override(error) => write!(f, "{:?}", error.error),
    }
}

impl Display for Named<'_> {
    fn fmt<W: fmt::Write>(&self, f: &mut fmt::Formatter<W>) -> fmt::Result {
        match self.0 {
            ValidationError::Module(error) => write_early(f, error),
            ValidationError::GlobalVariable(error) => write!(f, "{:?}", error.error),
            ValidationError::Function(error) => write!(f, "{:?}", error.error),
            ValidationError::EntryPoint(error) => write!(f, "{:?}", error.error),
        }
    }
}
