//! The check of all global variables of a module.

ghost use Rattle.std.specs.Prelude.{IfErr, MatchResult, OnOk};
ghost use Rattle.ir_items.specs.found.View.{module_view};
ghost use Rattle.module_constants.specs.Known.{IsKnown, module_in};
ghost use Rattle.module_steps.specs.Refusals.{IsVariableFault, IsRefusal};
ghost use Rattle.module_context.specs.AcceptedTypes.{AreAccepted};
ghost use Rattle.spec_expressions.specs.judged.Context.{outside};
ghost use Rattle.spec_interface.specs.judged.Globals.{GlobalsOK};
ghost use Rattle.spec_expressions.specs.judged.ModuleHandles.{HandlesOK};
ghost use Rattle.typing_infos.specs.Types.{AreTypes};

use ir_arena::handle::Handle;
use ir_flags::{Settings, ValidationFlags};
use ir_items::Module;
use ir_types::key;
use ir_types::refusal::Refusal;
use ir_types::with_span::WithSpan;
use module_constants::{GlobalContext, forms_given};
use module_globals::{GlobalVariableError, validate_global_var};
use std::alloc::Global;
use thiserror::Error;
use typing_forms::TypeResolution;
use typing_layout::{ExpressionKindTracker, TypeInfo};

/// An invalid global variable (naga's `ValidationError::GlobalVariable`).
#[derive(Clone, Copy, PartialEq, Debug, Error)]
#[error("global variable {global:?} is invalid: {error}")]
pub struct InvalidGlobalVariable {
    /// The handle of the variable.
    pub global: Handle<key::GlobalVariable>,
    /// Its error.
    pub error: GlobalVariableError,
}

// Whether all global variables of a module are valid. Each is visited once.
fn check_all(
    flags: ValidationFlags,
    context: &GlobalContext<'_>,
) -> Result<(), InvalidGlobalVariable>
    requires known { IsKnown context.now }
    requires handles { HandlesOK (module_in context.now) }
    ensures { MatchResult result
        (λ _. GlobalsOK flags context.now.capabilities (module_in context.now))
        (IsVariableFault flags context.now.capabilities (module_in context.now)) }
{
    for place in 0..context.module.global_variables.len() {
        let global = Handle::at(place);
        match validate_global_var(flags, context, global) {
            Ok(()) => {}
            Err(error) => return Err(InvalidGlobalVariable { global, error }),
        }
    }
    Ok(())
}

/// Whether all global variables of a module are valid (the part of naga's `Validator::validate` for global variables). Each is
/// visited once, and so is each global expression.
///
/// Requires that the module's handles are valid, and that these are its `TypeInfo`s and the types of its global expressions, as
/// `ModuleValidator::validate` returns them.
///
/// # Errors
///
/// The first invalid variable, with one of its errors and no span; or out of memory.
pub fn validate_globals(
    alloc: Global,
    settings: Settings,
    overrides_resolved: bool,
    module: &Module,
    infos: &[TypeInfo],
    resolutions: &[TypeResolution],
) -> Result<(), Refusal<InvalidGlobalVariable>>
    requires handles { HandlesOK (module_view «module».now) }
    requires told { AreAccepted settings.capabilities overrides_resolved (module_view «module».now).types infos.now }
    requires typed { AreTypes (outside (module_view «module».now)) (module_view «module».now).global_expressions resolutions.now }
    ensures accepted { OnOk result (GlobalsOK settings.flags settings.capabilities (module_view «module».now)) }
    ensures refused { IfErr result (IsRefusal settings.flags settings.capabilities (module_view «module».now)) }
{
    let kinds = ExpressionKindTracker::from_arena(alloc, &module.global_expressions)?;
    let forms = forms_given(alloc, &module.types, resolutions)?;
    let context = GlobalContext {
        capabilities: settings.capabilities,
        overrides_resolved,
        module,
        kinds: &kinds,
        forms: &forms,
        infos,
    };
    match check_all(settings.flags, &context) {
        Ok(()) => Ok(()),
        Err(error) => Err(Refusal::Fault(WithSpan::new(alloc, error))),
    }
}
