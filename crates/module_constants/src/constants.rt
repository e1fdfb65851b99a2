//! The checks of constants.

ghost use Rattle.std.specs.Prelude.{◌<◌, length, MatchResult};
ghost use Rattle.module_constants.specs.Constants.{IsConstantFault, IsFaultOf};
ghost use Rattle.ir_items.specs.found.GlobalView.{constant_view};
ghost use Rattle.module_constants.specs.Firsts.{AreAccepted, IsFirstRefused};
ghost use Rattle.module_constants.specs.Known.{IsKnown, module_in};
ghost use Rattle.module_constants.specs.Refusals.{IsFineConstant, IsConstantRefused};
ghost use Rattle.spec_expressions.specs.judged.Constants.{ConstantOK};

use crate::ConstantError;
use crate::context::{GlobalContext, has_type, is_composed, known_kind};
use ir_arena::handle::Handle;
use ir_items::Constant;
use ir_types::key;
use thiserror::Error;
use typing_layout::ExpressionKind;

/// An invalid constant (naga's `ValidationError::Constant`).
#[derive(Clone, Copy, PartialEq, Debug, Error)]
#[error("constant {constant:?} is invalid: {error}")]
pub struct InvalidConstant {
    /// The handle of the constant.
    pub constant: Handle<key::Constant>,
    /// Its error.
    pub error: ConstantError,
}

// Whether a constant is valid.
fn check_constant(context: &GlobalContext<'_>, item: &Constant) -> Result<(), ConstantError>
    requires known { IsKnown context.now }
    requires ty { item.now.ty < length context.now.infos.now }
    requires init { item.now.init < length context.now.kinds.now }
    requires typed { item.now.init < length context.now.forms.now }
    ensures { MatchResult result
        (λ _. IsFineConstant (module_in context.now) (constant_view item.now))
        (IsFaultOf (module_in context.now) (constant_view item.now)) }
{
    if !is_composed(context, item.ty) {
        return Err(ConstantError::NonConstructibleType);
    }
    if known_kind(context, item.init) != ExpressionKind::Const {
        return Err(ConstantError::InitializerExprType);
    }
    if !has_type(context, item.init, item.ty) {
        return Err(ConstantError::InvalidType);
    }
    Ok(())
}

/// Whether the constant at a handle is valid (naga's `validate_constant`).
///
/// # Errors
///
/// Its type is not constructible, or its initializer is not a const-expression or has another type. An error is returned only
/// if its condition holds.
pub fn validate_constant(
    context: &GlobalContext<'_>,
    handle: Handle<key::Constant>,
) -> Result<(), ConstantError>
    requires known { IsKnown context.now }
    requires within { handle < length context.now.«module».now.constants }
    ensures { MatchResult result (λ _. ConstantOK (module_in context.now) handle) (IsConstantRefused (module_in context.now) handle) }
{
    check_constant(context, &context.module.constants[handle])
}

/// Whether all constants of a module are valid. Each is visited once.
///
/// # Errors
///
/// The first invalid constant, with one of its errors.
pub fn validate_constants(context: &GlobalContext<'_>) -> Result<(), InvalidConstant>
    requires known { IsKnown context.now }
    ensures { MatchResult result
        (λ _. AreAccepted (ConstantOK (module_in context.now)) (length (module_in context.now).constants))
        (λ e. IsFirstRefused (ConstantOK (module_in context.now)) (λ handle. IsConstantFault (module_in context.now) handle e.error)
        (length (module_in context.now).constants) e.constant) }
{
    for place in 0..context.module.constants.len() {
        let constant = Handle::at(place);
        match validate_constant(context, constant) {
            Ok(()) => {}
            Err(error) => return Err(InvalidConstant { constant, error }),
        }
    }
    Ok(())
}
