//! The check of all handles of a module.

ghost use Rattle.std.specs.Prelude.{◌≡◌, MatchResult};
ghost use Rattle.std.specs.Option.{MatchOption};
ghost use Rattle.ir_items.specs.found.View.{module_view};
ghost use Rattle.ir_items.specs.judged.Plain.{PlainModule};
ghost use Rattle.ir_items.specs.found.Filters.{ParentsPrecede};
ghost use Rattle.module_handles.specs.Errors.{word_of, IsHandleError};
ghost use Rattle.module_handles.specs.InOrder.{IsFaultIn};
ghost use Rattle.spec_expressions.specs.judged.FunctionHandles.{OperandsPrecede};
ghost use Rattle.spec_expressions.specs.judged.ModuleHandles.{HandlesOK};

use crate::entries::fault_of_entries;
use crate::expressions::fault_of_expressions;
use crate::functions::fault_of_functions;
use crate::items::fault_of_items;
use crate::types::fault_of_types;
use crate::{FwdDepError, InvalidHandleError};
use ir_arena::handle::{BadHandle, Kind};
use ir_arena::range::{BadRangeError, Range};
use ir_items::{Module, key};
use spec_expressions::ItemKind;
use typing_references::{HandleFault, forward_operand, forward_parent};

// The word for an item's kind.
fn word(kind: ItemKind) -> &'static str
    ensures { result.now ≡ word_of kind }
{
    match kind {
        ItemKind::Type => key::IrType::word(),
        ItemKind::Constant => key::Constant::word(),
        ItemKind::Override => key::Override::word(),
        ItemKind::Expression => key::Expression::word(),
        ItemKind::GlobalVariable => key::GlobalVariable::word(),
        ItemKind::LocalVariable => key::LocalVariable::word(),
        ItemKind::Function => key::Function::word(),
        ItemKind::DiagnosticFilter => key::DiagnosticFilterNode::word(),
    }
}

// The public error of an internal one.
fn error_of(fault: HandleFault) -> InvalidHandleError
    ensures { (m : PlainModule) → IsFaultIn m fault → IsHandleError m result }
{
    match fault {
        HandleFault::Missing { kind, index } => InvalidHandleError::BadHandle(BadHandle {
            kind: word(kind),
            index,
        }),
        HandleFault::Forward {
            kind,
            index,
            depends_on,
        } => InvalidHandleError::ForwardDependency(FwdDepError {
            subject: index,
            subject_kind: word(kind),
            depends_on,
            depends_on_kind: word(kind),
        }),
        HandleFault::Range { first, end } => {
            let range: Range<key::Expression> = Range::new(first, end);
            InvalidHandleError::BadRange(BadRangeError::new(range))
        }
    }
}

// The error of a parent that does not precede its diagnostic filter.
fn fault_of_filters(module: &Module) -> Option<HandleFault>
    ensures { MatchOption result (ParentsPrecede ((module_view «module».now).filters)) (IsFaultIn (module_view «module».now)) }
{
    forward_parent(&module.diagnostic_filters)
}

// The error of an operand that does not precede its global expression.
fn fault_of_operands(module: &Module) -> Option<HandleFault>
    ensures { MatchOption result (OperandsPrecede ((module_view «module».now).global_expressions)) (IsFaultIn (module_view «module».now)) }
{
    forward_operand(&module.global_expressions)
}

// The first error of a module's handles.
#[tactic(auto, using(crate::proofs::Whole::whole))]
fn fault_of_module(module: &Module) -> Option<HandleFault>
    ensures { MatchOption result (HandlesOK (module_view «module».now)) (IsFaultIn (module_view «module».now)) }
{
    if let Some(fault) = fault_of_types(module) {
        return Some(fault);
    }
    if let Some(fault) = fault_of_items(module) {
        return Some(fault);
    }
    if let Some(fault) = fault_of_expressions(module) {
        return Some(fault);
    }
    if let Some(fault) = fault_of_operands(module) {
        return Some(fault);
    }
    if let Some(fault) = fault_of_filters(module) {
        return Some(fault);
    }
    if let Some(fault) = fault_of_functions(module) {
        return Some(fault);
    }
    fault_of_entries(module)
}

/// Whether the handles of a module are valid (naga's `validate_module_handles`): every handle is in bounds, every range is in
/// bounds, and each item follows its dependencies. No unchecked handle is dereferenced. The time is linear in
/// the size of the module.
///
/// # Errors
///
/// [`InvalidHandleError::BadHandle`] if a handle is out of bounds, [`InvalidHandleError::ForwardDependency`]
/// if an item does not follow one of its dependencies, and [`InvalidHandleError::BadRange`] if a range of
/// expressions is reversed or out of bounds. If several conditions hold, it is one of them.
pub fn validate_module_handles(module: &Module) -> Result<(), InvalidHandleError>
    ensures { MatchResult result (λ _. HandlesOK (module_view «module».now)) (IsHandleError (module_view «module».now)) }
{
    match fault_of_module(module) {
        Some(fault) => Err(error_of(fault)),
        None => Ok(()),
    }
}
