//! The steps of the check of a module, up to the types of its global expressions.

ghost use Rattle.std.specs.Prelude.{◌≡◌, [], IfOk, IfErr, OnErr, OnOk, length};
ghost use Rattle.ir_items.specs.found.View.{module_view};
ghost use Rattle.module_context.specs.AcceptedTypes.{AreAccepted};
ghost use Rattle.module_steps.specs.Faults.{IsModuleFault, IsRefusal, IsReportedAs, IsOutOfMemory};
ghost use Rattle.spec_expressions.specs.judged.Context.{outside};
ghost use Rattle.judgement.specs.judged.ModuleSteps.{IsReached, layout, type, typing, expression};
ghost use Rattle.typing_infos.specs.Types.{AreTypes, IsFirstUntyped};
ghost use Rattle.typing_layout.specs.found.Held.{AreLayouts};

use crate::error::ModuleError;
use crate::validate_types;
use ir_flags::Settings;
use ir_items::Module;
use ir_types::refusal::Refusal;
use ir_types::with_span::WithSpan;
use module_constants::InvalidGlobalExpression;
use module_handles::validate_module_handles;
use std::alloc::{AllocError, Global};
use typing_errors::ConstExpressionError;
use typing_forms::TypeResolution;
use typing_infos::{TypingRefusal, const_expression_types};
use typing_layout::{Layouter, TypeInfo};

/// The module error of an error.
pub(crate) fn refused(
    alloc: Global,
    settings: Settings,
    overrides_resolved: bool,
    module: &Module,
    error: ModuleError,
) -> Refusal<ModuleError>
    requires { IsModuleFault settings overrides_resolved (module_view «module».now) error }
    ensures { IsRefusal settings overrides_resolved (module_view «module».now) result }
{
    Refusal::Fault(WithSpan::new(alloc, error))
}

/// Checks that the handles of a module are valid.
pub fn check_handles(
    alloc: Global,
    settings: Settings,
    overrides_resolved: bool,
    module: &Module,
) -> Result<(), Refusal<ModuleError>>
    ensures reached { IfOk result (λ _. IsReached settings overrides_resolved (module_view «module».now) layout) }
    ensures refused { IfErr result (IsRefusal settings overrides_resolved (module_view «module».now)) }
{
    match validate_module_handles(module) {
        Ok(()) => Ok(()),
        Err(error) => Err(refused(
            alloc,
            settings,
            overrides_resolved,
            module,
            ModuleError::InvalidHandle(error),
        )),
    }
}

/// Computes the layouts of a module's types.
pub fn lay_out(
    alloc: Global,
    settings: Settings,
    overrides_resolved: bool,
    module: &Module,
    layouter: &mut Layouter,
) -> Result<(), Refusal<ModuleError>>
    requires reached { IsReached settings overrides_resolved (module_view «module».now) layout }
    requires empty { layouter.old ≡ [] }
    ensures held { AreLayouts (module_view «module».now).types layouter.new }
    ensures all { OnOk result (length layouter.new ≡ length (module_view «module».now).types) }
    ensures reached { OnOk result (IsReached settings overrides_resolved (module_view «module».now) type) }
    ensures refused { IfErr result (IsRefusal settings overrides_resolved (module_view «module».now)) }
{
    match layouter.update(&module.types) {
        Ok(()) => Ok(()),
        Err(Refusal::Memory(error)) => Err(Refusal::Memory(error)),
        Err(Refusal::Fault(fault)) => Err(refused(
            alloc,
            settings,
            overrides_resolved,
            module,
            ModuleError::Layouter(fault.into_inner()),
        )),
    }
}

/// Computes the `TypeInfo`s of a module's types.
pub fn type_infos(
    alloc: Global,
    settings: Settings,
    overrides_resolved: bool,
    module: &Module,
    layouter: &Layouter,
) -> Result<Vec<TypeInfo>, Refusal<ModuleError>>
    requires reached { IsReached settings overrides_resolved (module_view «module».now) type }
    requires held { AreLayouts (module_view «module».now).types layouter.now }
    requires all { length layouter.now ≡ length (module_view «module».now).types }
    ensures accepted { IfOk result (λ infos. AreAccepted settings.capabilities overrides_resolved (module_view «module».now).types infos.items) }
    ensures reached { OnOk result (IsReached settings overrides_resolved (module_view «module».now) typing) }
    ensures refused { IfErr result (IsRefusal settings overrides_resolved (module_view «module».now)) }
{
    match validate_types(
        alloc,
        settings.capabilities,
        overrides_resolved,
        &module.types,
        layouter,
    ) {
        Ok(infos) => Ok(infos),
        Err(Refusal::Memory(error)) => Err(Refusal::Memory(error)),
        Err(Refusal::Fault(fault)) => Err(refused(
            alloc,
            settings,
            overrides_resolved,
            module,
            ModuleError::Typing(fault.into_inner()),
        )),
    }
}

// The error of type inference, as the error of the global expression.
fn as_error(refusal: TypingRefusal) -> Result<InvalidGlobalExpression, AllocError>
    ensures told { IfOk result (IsReportedAs refusal) }
    ensures memory { OnErr result (IsOutOfMemory refusal) }
{
    match refusal {
        TypingRefusal::Memory(error) => Err(error),
        TypingRefusal::Fault { expression, error } => Ok(InvalidGlobalExpression {
            expression,
            error: ConstExpressionError::Typing(error),
        }),
    }
}

// The error of a module if the type of a global expression can't be inferred.
fn untyped(
    alloc: Global,
    settings: Settings,
    overrides_resolved: bool,
    module: &Module,
    refusal: TypingRefusal,
) -> Refusal<ModuleError>
    requires reached { IsReached settings overrides_resolved (module_view «module».now) typing }
    requires first { IsFirstUntyped (outside (module_view «module».now)) (module_view «module».now).global_expressions refusal }
    ensures { IsRefusal settings overrides_resolved (module_view «module».now) result }
{
    match as_error(refusal) {
        Ok(error) => refused(
            alloc,
            settings,
            overrides_resolved,
            module,
            ModuleError::ConstExpression(error),
        ),
        Err(error) => Refusal::Memory(error),
    }
}

/// Infers the types of the global expressions of a module.
pub fn expression_types(
    alloc: Global,
    settings: Settings,
    overrides_resolved: bool,
    module: &Module,
) -> Result<Vec<TypeResolution>, Refusal<ModuleError>>
    requires reached { IsReached settings overrides_resolved (module_view «module».now) typing }
    ensures typed { IfOk result (λ types. AreTypes (outside (module_view «module».now)) (module_view «module».now).global_expressions types.items) }
    ensures reached { OnOk result (IsReached settings overrides_resolved (module_view «module».now) expression) }
    ensures refused { IfErr result (IsRefusal settings overrides_resolved (module_view «module».now)) }
{
    match const_expression_types(alloc, module) {
        Ok(types) => Ok(types),
        Err(refusal) => Err(untyped(alloc, settings, overrides_resolved, module, refusal)),
    }
}
