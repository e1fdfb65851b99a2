//! Whether a global variable is valid.

ghost use Rattle.std.specs.Prelude.{IfOk, MatchResult};
ghost use Rattle.function_whole.specs.Globals.{IsRefusedFor, IsVariableOf};
ghost use Rattle.module_globals.specs.Faults.{IsWrongBy};
ghost use Rattle.module_globals.specs.Initializers.{IsInitializer, IsTypedBy};
ghost use Rattle.ir_items.specs.found.GlobalView.{global_view};
ghost use Rattle.ir_items.specs.found.View.{module_view};
ghost use Rattle.spec_interface.specs.judged.Globals.{VariableBy};
ghost use Rattle.spec_expressions.specs.judged.ModuleHandles.{HandlesOK};

use function_interface::Lower;
use ir_flags::{Capabilities, ValidationFlags};
use ir_items::{GlobalVariable, Module};
use ir_types::refusal::Refusal;
use ir_types::with_span::WithSpan;
use module_globals::{GlobalVariableError, Initializer, VariableContext, validate_variable};
use std::alloc::{AllocError, Global};
use typing_forms::form_of;
use typing_layout::ExpressionKindTracker;

// The facts about the initializer of a variable, if it has one. The error is out of memory.
fn initializer_of<L: Lower>(
    lower: &L,
    alloc: Global,
    module: &Module,
    variable: &GlobalVariable,
) -> Result<Option<Initializer>, AllocError>
    requires made { L.is_for lower.now (module_view «module».now) }
    requires handles { HandlesOK (module_view «module».now) }
    requires part { IsVariableOf (module_view «module».now) (global_view variable.now) }
    ensures there { IfOk result (IsInitializer (module_view «module».now) variable.now.init) }
    ensures typed { IfOk result (IsTypedBy (L.has_global_form lower.now (module_view «module».now)) variable.now.init) }
{
    let Some(init) = variable.init else {
        return Ok(None);
    };
    let kinds = ExpressionKindTracker::from_arena(alloc, &module.global_expressions)?;
    Ok(Some(Initializer {
        is_known: kinds.is_const_or_override(init),
        form: form_of(&module.types, lower.global_resolution(init)),
    }))
}

/// Whether a global variable of a module is valid, with the types of global expressions of the layer below (naga's
/// `Validator::validate_global_var`). If the variable has an initializer, it takes time and memory for each global expression.
///
/// Requires that the layer was made for the module, that the handles of the module are in order, and that the variable is one
/// of the module's.
///
/// # Errors
///
/// [`Refusal::Fault`] exactly if the variable is invalid, with an error whose condition holds and no span; if several hold, it
/// is one of them. [`Refusal::Memory`] if out of memory.
pub fn validate_global_var<L: Lower>(
    lower: &L,
    alloc: Global,
    flags: ValidationFlags,
    capabilities: Capabilities,
    module: &Module,
    variable: &GlobalVariable,
) -> Result<(), Refusal<GlobalVariableError>>
    requires made { L.is_for lower.now (module_view «module».now) }
    requires handles { HandlesOK (module_view «module».now) }
    requires part { IsVariableOf (module_view «module».now) (global_view variable.now) }
    ensures { let m = module_view «module».now in
        let v = global_view variable.now in
        MatchResult result
        (λ _. VariableBy (L.has_global_form lower.now m) flags capabilities m v)
        (IsRefusedFor (IsWrongBy (L.has_global_form lower.now m) flags capabilities m v)) }
{
    let initializer = match initializer_of(lower, alloc, module, variable) {
        Ok(initializer) => initializer,
        Err(error) => return Err(Refusal::Memory(error)),
    };
    let context = VariableContext {
        capabilities,
        module,
        infos: lower.type_infos(),
    };
    match validate_variable(flags, &context, variable, initializer) {
        Ok(()) => Ok(()),
        Err(error) => Err(Refusal::Fault(WithSpan::new(alloc, error))),
    }
}
