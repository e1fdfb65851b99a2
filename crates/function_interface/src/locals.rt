//! The local variables of a function.

ghost use Rattle.std.specs.Prelude.{◌≡◌, ◌↔◌, ◌⊎◌, IsTrue, MatchResult};
ghost use Rattle.function_interface.specs.Items.{EachOK, IsFirstAt};
ghost use Rattle.function_interface.specs.Locals.{IsBeginError, IsLocalError, IsLocalsFault};
ghost use Rattle.function_interface.specs.Refusals.{IsRefusal};
ghost use Rattle.function_interface.specs.Reported.{AreReported};
ghost use Rattle.ir_items.specs.found.View.{local_view};
ghost use Rattle.spec_statements.specs.judged.BlockContext.{BlockContext as PlainContext};
ghost use Rattle.spec_statements.specs.judged.Interfaces.{BeginsAs, LocalOK};
ghost use Rattle.function_statement_checks.specs.View.{context_view, IsKnown};
ghost use Rattle.typing_layout.specs.judged.Constness.{IsOfKind};
ghost use Rattle.typing_layout.specs.declared.constness.ExpressionKind.TheVariants.{Const, Override};

use crate::flags::is_constructible;
use crate::item_names::name_of;
use function_statement_checks::{BlockContext, StatementContext};
use ir_arena::handle::Handle;
use ir_items::LocalVariable;
use ir_types::key;
use ir_types::refusal::Refusal;
use ir_types::with_span::WithSpan;
use module_context::are_same;
use std::alloc::Global;
use typing_errors::{FunctionError, LocalVariableError};
use typing_layout::TypeInfo;

// Whether an expression is constant or an override.
fn is_known(context: &BlockContext<'_>, handle: Handle<key::Expression>) -> bool
    requires { IsKnown context.now }
    ensures { IsTrue result ↔ (IsOfKind (context_view context.now).f.expressions handle Const ⊎ IsOfKind (context_view context.now).f.expressions handle Override) }
{
    handle.index() < context.function.expressions.len()
        && context.kinds.is_const_or_override(handle)
}

// Whether a variable of a type can have this initializer.
fn check_begin(
    context: &BlockContext<'_>,
    ty: Handle<key::IrType>,
    init: Handle<key::Expression>,
) -> Result<(), LocalVariableError>
    requires { IsKnown context.now }
    ensures { MatchResult result
        (λ _. BeginsAs (context_view context.now) ty init)
        (IsBeginError (context_view context.now) ty init) }
{
    if !are_same(context.form_at(init), context.form_of(ty)) {
        return Err(LocalVariableError::InitializerType);
    }
    if !is_known(context, init) {
        return Err(LocalVariableError::NonConstOrOverrideInitializer);
    }
    Ok(())
}

/// Whether a local variable's type is constructible, and its initializer, if any, has this type and is constant or an override
/// (naga's `validate_local_var`). `infos` has the `TypeInfo`s of the module.
///
/// # Errors
///
/// [`LocalVariableError::InvalidType`] for a type that is not constructible, [`LocalVariableError::InitializerType`] for an
/// initializer of another type, and [`LocalVariableError::NonConstOrOverrideInitializer`] for a runtime initializer.
pub fn check_local(
    context: &BlockContext<'_>,
    infos: &[TypeInfo],
    local: &LocalVariable,
) -> Result<(), LocalVariableError>
    requires known { IsKnown context.now }
    requires told { AreReported (context_view context.now).m.types infos.now }
    ensures { MatchResult result
        (λ _. LocalOK (context_view context.now) (local_view local.now))
        (IsLocalError (context_view context.now) (local_view local.now)) }
{
    if !is_constructible(infos, local.ty) {
        return Err(LocalVariableError::InvalidType(local.ty));
    }
    match local.init {
        None => Ok(()),
        Some(init) => match check_begin(context, local.ty, init) {
            Ok(()) => Ok(()),
            Err(error) => Err(error),
        },
    }
}

// The refusal of a variable.
fn refused_local(
    alloc: Global,
    handle: Handle<key::LocalVariable>,
    local: &LocalVariable,
    source: LocalVariableError,
) -> Refusal<FunctionError>
    ensures { (c : PlainContext) → IsFirstAt (LocalOK c) (λ l. (l ≡ local_view local.now) × IsLocalError c l source) c.f.locals handle
        → IsRefusal (EachOK (LocalOK c) c.f.locals) (IsLocalsFault c) result }
{
    match name_of(alloc, &local.name) {
        Ok(name) => {
            let error = FunctionError::LocalVariable {
                handle,
                name,
                source,
            };
            Refusal::Fault(WithSpan::new(alloc, error))
        }
        Err(error) => Refusal::Memory(error),
    }
}

/// Whether the local variables of a function are valid. `infos` has the `TypeInfo`s of the module.
///
/// # Errors
///
/// [`Refusal::Fault`] with [`FunctionError::LocalVariable`] for the first invalid one, with its name, empty if it has none, and
/// the error of [`check_local`]; [`Refusal::Memory`] if there is no memory for its name.
pub fn check_locals(
    alloc: Global,
    context: &BlockContext<'_>,
    infos: &[TypeInfo],
) -> Result<(), Refusal<FunctionError>>
    requires known { IsKnown context.now }
    requires told { AreReported (context_view context.now).m.types infos.now }
    ensures { MatchResult result
        (λ _. EachOK (LocalOK (context_view context.now)) (context_view context.now).f.locals)
        (IsRefusal (EachOK (LocalOK (context_view context.now)) (context_view context.now).f.locals) (IsLocalsFault (context_view context.now))) }
{
    let locals = &context.function.local_variables;
    for index in 0..locals.len() {
        let handle = Handle::at(index);
        let local = &locals[handle];
        if let Err(source) = check_local(context, infos, local) {
            return Err(refused_local(alloc, handle, local, source));
        }
    }
    Ok(())
}
