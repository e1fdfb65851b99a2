//! The steps that check a module's values: global expressions, constants and overrides.

ghost use Rattle.std.specs.Prelude.{◌↔◌, IsTrue, IfErr, OnOk};
ghost use Rattle.ir_flags.specs.Sets.{Has};
ghost use Rattle.ir_flags.specs.declared.settings.TheConstants.ValidationFlags.{CONSTANTS};
ghost use Rattle.ir_items.specs.found.View.{module_view};
ghost use Rattle.module_constants.specs.Known.{IsKnown, module_in};
ghost use Rattle.module_context.specs.AcceptedTypes.{AreAccepted};
ghost use Rattle.module_steps.specs.Faults.{IsRefusal};
ghost use Rattle.module_steps.specs.Settings.{AreSettingsOf};
ghost use Rattle.spec_expressions.specs.judged.Context.{outside};
ghost use Rattle.judgement.specs.judged.ModuleSteps.{IsReached, ModuleOK, expression, constant, override};
ghost use Rattle.typing_infos.specs.Types.{AreTypes};

use crate::error::ModuleError;
use crate::listed_overrides::validate_overrides;
use crate::steps::refused;
use bitflags::Flags;
use ir_flags::{Settings, ValidationFlags};
use ir_items::Module;
use ir_types::refusal::Refusal;
use module_constants::{
    GlobalContext, forms_given, validate_const_expressions, validate_constants,
};
use std::alloc::Global;
use typing_forms::TypeResolution;
use typing_layout::{ExpressionKindTracker, TypeInfo};

// Whether the flags include `CONSTANTS`.
fn requires_values(flags: ValidationFlags) -> bool
    ensures { IsTrue result ↔ Has flags.0 CONSTANTS.0 }
{
    flags.contains(ValidationFlags::CONSTANTS)
}

// Checks a module's global expressions.
fn check_expressions(
    alloc: Global,
    settings: Settings,
    overrides_resolved: bool,
    context: &GlobalContext<'_>,
) -> Result<(), Refusal<ModuleError>>
    requires same { AreSettingsOf settings overrides_resolved context.now }
    requires asked { Has settings.flags.0 CONSTANTS.0 }
    requires reached { IsReached settings overrides_resolved (module_in context.now) expression }
    requires known { IsKnown context.now }
    ensures reached { OnOk result (IsReached settings overrides_resolved (module_in context.now) constant) }
    ensures refused { IfErr result (IsRefusal settings overrides_resolved (module_in context.now)) }
{
    match validate_const_expressions(context) {
        Ok(()) => Ok(()),
        Err(error) => Err(refused(
            alloc,
            settings,
            overrides_resolved,
            context.module,
            ModuleError::ConstExpression(error),
        )),
    }
}

// Checks a module's constants.
fn check_constants(
    alloc: Global,
    settings: Settings,
    overrides_resolved: bool,
    context: &GlobalContext<'_>,
) -> Result<(), Refusal<ModuleError>>
    requires same { AreSettingsOf settings overrides_resolved context.now }
    requires asked { Has settings.flags.0 CONSTANTS.0 }
    requires reached { IsReached settings overrides_resolved (module_in context.now) constant }
    requires known { IsKnown context.now }
    ensures reached { OnOk result (IsReached settings overrides_resolved (module_in context.now) override) }
    ensures refused { IfErr result (IsRefusal settings overrides_resolved (module_in context.now)) }
{
    match validate_constants(context) {
        Ok(()) => Ok(()),
        Err(error) => Err(refused(
            alloc,
            settings,
            overrides_resolved,
            context.module,
            ModuleError::Constant(error),
        )),
    }
}

// Checks a module's overrides.
fn check_overrides(
    alloc: Global,
    settings: Settings,
    overrides_resolved: bool,
    context: &GlobalContext<'_>,
) -> Result<(), Refusal<ModuleError>>
    requires same { AreSettingsOf settings overrides_resolved context.now }
    requires asked { Has settings.flags.0 CONSTANTS.0 }
    requires reached { IsReached settings overrides_resolved (module_in context.now) override }
    requires known { IsKnown context.now }
    ensures accepted { OnOk result (ModuleOK settings overrides_resolved (module_in context.now)) }
    ensures refused { IfErr result (IsRefusal settings overrides_resolved (module_in context.now)) }
{
    match validate_overrides(alloc, context) {
        Ok(()) => Ok(()),
        Err(Refusal::Memory(error)) => Err(Refusal::Memory(error)),
        Err(Refusal::Fault(fault)) => Err(refused(
            alloc,
            settings,
            overrides_resolved,
            context.module,
            ModuleError::Override(fault.into_inner()),
        )),
    }
}

// Checks a module's global expressions, constants and overrides.
fn check_each(
    alloc: Global,
    settings: Settings,
    overrides_resolved: bool,
    context: &GlobalContext<'_>,
) -> Result<(), Refusal<ModuleError>>
    requires same { AreSettingsOf settings overrides_resolved context.now }
    requires asked { Has settings.flags.0 CONSTANTS.0 }
    requires reached { IsReached settings overrides_resolved (module_in context.now) expression }
    requires known { IsKnown context.now }
    ensures accepted { OnOk result (ModuleOK settings overrides_resolved (module_in context.now)) }
    ensures refused { IfErr result (IsRefusal settings overrides_resolved (module_in context.now)) }
{
    check_expressions(alloc, settings, overrides_resolved, context)?;
    check_constants(alloc, settings, overrides_resolved, context)?;
    check_overrides(alloc, settings, overrides_resolved, context)
}

/// Checks a module's global expressions, constants and overrides, if the flags include `CONSTANTS`.
pub fn check_values(
    alloc: Global,
    settings: Settings,
    overrides_resolved: bool,
    module: &Module,
    infos: &[TypeInfo],
    resolutions: &[TypeResolution],
) -> Result<(), Refusal<ModuleError>>
    requires reached { IsReached settings overrides_resolved (module_view «module».now) expression }
    requires told { AreAccepted settings.capabilities overrides_resolved (module_view «module».now).types infos.now }
    requires typed { AreTypes (outside (module_view «module».now)) (module_view «module».now).global_expressions resolutions.now }
    ensures accepted { OnOk result (ModuleOK settings overrides_resolved (module_view «module».now)) }
    ensures refused { IfErr result (IsRefusal settings overrides_resolved (module_view «module».now)) }
{
    if !requires_values(settings.flags) {
        return Ok(());
    }
    let kinds = ExpressionKindTracker::from_arena(alloc, &module.global_expressions)?;
    let forms = forms_given(alloc, &module.types, resolutions)?;
    let context = GlobalContext {
        capabilities: settings.capabilities,
        overrides_resolved,
        module,
        kinds: &kinds,
        forms: &forms,
        infos,
    };
    check_each(alloc, settings, overrides_resolved, &context)
}
