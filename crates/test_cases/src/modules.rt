// Whether the handles of a module are in order, whether it is valid up to its overrides, and its error.
use document_reader::Document;
use ir_items::Module;
use ir_types::refusal::Refusal;
use module_handles::{InvalidHandleError, validate_module_handles};
use module_steps::{InvalidType, ModuleError, ModuleInfo, ModuleValidator};
use std::alloc::{AllocError, Global};
use std::fmt::Debug;
use test_support::call::freeing;
use typing_layout::TypeError;

/// Whether each override must have a value.
#[derive(Clone, Copy)]
pub enum Overrides {
    Open,
    Resolved,
}

// The name of an error of a handle.
fn handle_fault(error: &InvalidHandleError) -> &'static str {
    match error {
        InvalidHandleError::BadHandle(_) => "BadHandle",
        InvalidHandleError::ForwardDependency(_) => "ForwardDependency",
        InvalidHandleError::BadRange(_) => "BadRange",
    }
}

/// Whether the handles of a module are in order, or the name of the error.
pub fn handles_told(alloc: Global, module: &Module) -> Result<String, AllocError> {
    let told = match validate_module_handles(module) {
        Ok(()) => "in order",
        Err(error) => handle_fault(&error),
    };
    String::from_str(alloc, told)
}

// The failing step, the item, and the error.
fn item_told<E: Debug>(
    alloc: Global,
    step: &str,
    index: usize,
    error: &E,
) -> Result<String, AllocError> {
    format!(in alloc; "{step} {index} {error:?}")
}

// The invalid type, and its error; the fields of the error of blend sources are not printed.
fn type_told(alloc: Global, refused: &InvalidType) -> Result<String, AllocError> {
    let index = refused.ty.index();
    if let TypeError::InvalidBlendSrc(_) = refused.error {
        return format!(in alloc; "type {index} InvalidBlendSrc");
    }
    item_told(alloc, "type", index, &refused.error)
}

/// The failing step of a module, and the error.
pub fn error_told(alloc: Global, error: &ModuleError) -> Result<String, AllocError> {
    match error {
        ModuleError::InvalidHandle(error) => {
            format!(in alloc; "handles {}", handle_fault(error))
        }
        ModuleError::Layouter(error) => {
            item_told(alloc, "layout", error.ty.index(), &error.inner)
        }
        ModuleError::Typing(refused) => type_told(alloc, refused),
        ModuleError::ConstExpression(refused) => item_told(
            alloc,
            "expression",
            refused.expression.index(),
            &refused.error,
        ),
        ModuleError::Constant(refused) => item_told(
            alloc,
            "constant",
            refused.constant.index(),
            &refused.error,
        ),
        ModuleError::Override(refused) => {
            item_told(alloc, "override", refused.id.index(), &refused.error)
        }
    }
}

// The result of a validator.
fn answer_told(
    alloc: Global,
    judged: &Result<ModuleInfo, Refusal<ModuleError>>,
) -> Result<String, AllocError> {
    match judged {
        Ok(_) => String::from_str(alloc, "accepted"),
        Err(Refusal::Memory(_)) => Err(AllocError),
        Err(Refusal::Fault(fault)) => error_told(alloc, fault.as_inner()),
    }
}

/// Whether the module of a document is valid up to its overrides, or its error.
pub fn checks_told(
    alloc: Global,
    document: &Document,
    overrides: Overrides,
) -> Result<String, AllocError> {
    let mut validator = ModuleValidator::with_settings(alloc, document.settings);
    let judged = match overrides {
        Overrides::Open => validator.validate(&document.module),
        Overrides::Resolved => validator.validate_resolved_overrides(&document.module),
    };
    freeing(freeing(answer_told(alloc, &judged), judged), validator)
}
