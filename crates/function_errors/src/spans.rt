//! The spans of an error of a module.

ghost use Rattle.std.specs.Prelude.{◌≡◌, IfOk, slice_get};
ghost use Rattle.function_errors.specs.Spans.{IsSpanned, inner_label, label_in_entry, label_in_function, outer_label};
ghost use Rattle.function_errors.specs.Labels.{labelled};
ghost use Rattle.ir_arena.specs.found.Arenas.{value_at};
ghost use Rattle.ir_types.specs.found.Faults.{error_of, spans_of};

use crate::error::{InvalidEntryPoint, InvalidFunction, ValidationError};
use crate::labels::{Label, with_label};
use crate::modules::{entry_label, function_label, module_label, subject_label, variable_label};
use ir_items::Module;
use ir_types::refusal::Refusal;
use ir_types::with_span::WithSpan;
use std::alloc::AllocError;

fn label_in_function(module: &Module, refused: &InvalidFunction) -> Option<Label>
    ensures { result ≡ label_in_function (value_at «module».now.functions refused.now.function) refused.now.error }
{
    match module.functions.try_get(refused.function) {
        Ok(function) => subject_label(function, &refused.error),
        Err(_) => None,
    }
}

fn label_in_entry(module: &Module, refused: &InvalidEntryPoint) -> Option<Label>
    ensures { result ≡ label_in_entry «module».now (slice_get «module».now.entry_points.items refused.now.index) refused.now.error }
{
    match module.entry_points.get(refused.index) {
        Some(entry) => entry_label(module, entry, &refused.error),
        None => None,
    }
}

// The innermost item that an error names.
fn inner_label(module: &Module, error: &ValidationError) -> Option<Label>
    ensures { result ≡ inner_label «module».now error.now }
{
    match error {
        ValidationError::Module(error) => module_label(module, error),
        ValidationError::GlobalVariable(refused) => Some(variable_label(module, refused.global)),
        ValidationError::Function(refused) => label_in_function(module, refused),
        ValidationError::EntryPoint(refused) => label_in_entry(module, refused),
    }
}

// The function that contains it, which is not an entry point's.
fn outer_label(module: &Module, error: &ValidationError) -> Option<Label>
    ensures { result ≡ outer_label «module».now error.now }
{
    match error {
        ValidationError::Function(refused) => Some(function_label(module, refused.function)),
        ValidationError::Module(_)
        | ValidationError::GlobalVariable(_)
        | ValidationError::EntryPoint(_) => None,
    }
}

// The error with a label, if there is one and its span is known. If out of memory, the error is freed.
fn labelled_once<E: Drop>(
    fault: WithSpan<E>,
    label: Option<Label>,
) -> Result<WithSpan<E>, AllocError>
    ensures { IfOk result (λ f. (error_of f ≡ error_of fault) × (spans_of f ≡ labelled (spans_of fault) label)) }
{
    match with_label(fault, label) {
        Ok(fault) => Ok(fault),
        Err(_) => Err(AllocError),
    }
}

// The error with the spans of the items that it names.
fn located(
    module: &Module,
    fault: WithSpan<ValidationError>,
) -> Result<WithSpan<ValidationError>, AllocError>
    ensures { IfOk result (λ f. (error_of f ≡ error_of fault) × (spans_of f ≡ labelled (labelled (spans_of fault) (inner_label «module».now (error_of fault))) (outer_label «module».now (error_of fault)))) }
{
    let inner = inner_label(module, fault.as_inner());
    let outer = outer_label(module, fault.as_inner());
    match labelled_once(fault, inner) {
        Ok(fault) => labelled_once(fault, outer),
        Err(error) => Err(error),
    }
}

/// The result with the spans of the items that its error names: the innermost first.
///
/// # Errors
///
/// The error of the result, or out of memory.
pub fn with_spans<I>(
    module: &Module,
    judged: Result<I, Refusal<ValidationError>>,
) -> Result<I, Refusal<ValidationError>>
    ensures { IsSpanned «module».now judged result }
{
    match judged {
        Ok(info) => Ok(info),
        Err(Refusal::Memory(error)) => Err(Refusal::Memory(error)),
        Err(Refusal::Fault(fault)) => match located(module, fault) {
            Ok(fault) => Err(Refusal::Fault(fault)),
            Err(error) => Err(Refusal::Memory(error)),
        },
    }
}
