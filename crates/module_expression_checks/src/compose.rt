//! The check of `Compose` in a function.

ghost use Rattle.std.specs.Prelude.{MatchResult, map};
ghost use Rattle.module_context.specs.OperandView.{scene_in, types_in};
ghost use Rattle.module_expression_checks.specs.Faults.{IsBadComposition};
ghost use Rattle.spec_statements.specs.judged.Scene.{form_among};
ghost use Rattle.spec_expressions.specs.judged.Compose.{ComposeOK};

use ir_arena::handle::Handle;
use ir_types::key;
use module_constants::{Components, check_composition};
use module_context::CheckContext;
use typing_errors::ExpressionError;

/// Whether components compose a value of a type (naga's `validate_compose`).
///
/// # Errors
///
/// [`ExpressionError::Compose`]: the type can't be composed, a component has the wrong type, or the number of components is
/// wrong. An error is returned only if its condition holds.
pub fn check_compose(
    context: &CheckContext<'_>,
    ty: Handle<key::IrType>,
    components: &[Handle<key::Expression>],
) -> Result<(), ExpressionError>
    ensures { MatchResult result
        (λ _. ComposeOK (types_in context.now) ty (map (form_among (scene_in context.now).forms) components.now))
        (IsBadComposition (types_in context.now) ty (map (form_among (scene_in context.now).forms) components.now)) }
{
    let parts = Components::Expressions {
        forms: context.forms,
        handles: components,
    };
    match check_composition(context.types, ty, &parts) {
        Ok(()) => Ok(()),
        Err(error) => Err(ExpressionError::Compose(error)),
    }
}
