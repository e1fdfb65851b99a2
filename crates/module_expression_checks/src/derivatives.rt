//! The check of `Derivative`.

ghost use Rattle.std.specs.Prelude.{◌↔◌, IsTrue, MatchResult};
ghost use Rattle.module_context.specs.Refused.{IsRefused};
ghost use Rattle.module_context.specs.OperandView.{scene_in};
ghost use Rattle.spec_statements.specs.judged.Derivatives.{DerivativeOK};
ghost use Rattle.spec_statements.specs.judged.Scene.{form_among};

use ir_arena::handle::Handle;
use ir_types::key;
use module_context::{CheckContext, is_floating, refused_unless};
use typing_errors::ExpressionError;
use typing_forms::Form;

// Whether a type is a float scalar or vector.
fn is_slope(of: Form) -> bool
    ensures { IsTrue result ↔ DerivativeOK of }
{
    match of {
        Form::Scalar(scalar) | Form::Vector { scalar, .. } => is_floating(scalar.kind),
        Form::Matrix { .. }
        | Form::CooperativeMatrix { .. }
        | Form::Atomic(_)
        | Form::Pointer { .. }
        | Form::ValuePointer { .. }
        | Form::Array { .. }
        | Form::Struct(_)
        | Form::Image { .. }
        | Form::Sampler { .. }
        | Form::AccelerationStructure { .. }
        | Form::RayQuery { .. }
        | Form::BindingArray { .. }
        | Form::Nothing => false,
    }
}

/// Whether the derivative of a value is defined.
///
/// # Errors
///
/// [`ExpressionError::Other`] if it is not.
#[tactic(auto, using(module_context::proofs::Refusals::by_test))]
pub fn check_derivative(
    context: &CheckContext<'_>,
    expr: Handle<key::Expression>,
) -> Result<(), ExpressionError>
    ensures { MatchResult result
        (λ _. DerivativeOK (form_among (scene_in context.now).forms expr))
        (IsRefused (DerivativeOK (form_among (scene_in context.now).forms expr))) }
{
    refused_unless(is_slope(context.form_at(expr)))
}
