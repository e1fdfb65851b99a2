//! The check of `Swizzle`.

ghost use Rattle.std.specs.Prelude.{◌↔◌, IsTrue, MatchResult};
ghost use Rattle.module_context.specs.Refused.{IsRefused};
ghost use Rattle.module_context.specs.OperandView.{scene_in};
ghost use Rattle.module_expression_checks.specs.Letters.{MayStand};
ghost use Rattle.spec_statements.specs.judged.Swizzles.{AreComponents, SwizzleOK};
ghost use Rattle.spec_statements.specs.judged.Scene.{form_among};

use ir_arena::handle::Handle;
use ir_kinds::{SwizzleComponent, VectorSize};
use ir_types::key;
use module_context::{CheckContext, refused_unless, shaped_of};
use spec_statements::Shape;
use typing_errors::ExpressionError;
use typing_forms::Form;

// Whether the pattern's component at an index is in bounds of the vector, if the index is below the swizzle's size.
fn may_stand(size: VectorSize, place: usize, letter: SwizzleComponent, of: VectorSize) -> bool
    ensures { IsTrue result ↔ MayStand size place letter of }
{
    place >= u32::from(size) as usize || letter.index() < u32::from(of)
}

// Whether the pattern's used components are in bounds of a vector.
#[tactic(auto, using(crate::proofs::Letters::stand_none, crate::proofs::Letters::stand_more, crate::proofs::Letters::stand_all, crate::proofs::Letters::stand_not))]
fn are_components(size: VectorSize, pattern: [SwizzleComponent; 4], of: VectorSize) -> bool
    ensures { IsTrue result ↔ AreComponents size pattern of }
{
    for place in 0..4 {
        if !may_stand(size, place, pattern[place], of) {
            return false;
        }
    }
    true
}

// Whether a pattern is valid for a vector.
fn is_swizzle(size: VectorSize, pattern: [SwizzleComponent; 4], of: Form) -> bool
    ensures { IsTrue result ↔ SwizzleOK size pattern of }
{
    match shaped_of(of) {
        Some(shaped) => match shaped.shape {
            Shape::Vector(components) => are_components(size, pattern, components),
            Shape::Scalar | Shape::Matrix { .. } | Shape::CooperativeMatrix { .. } => false,
        },
        None => false,
    }
}

/// Whether a pattern is valid for a vector.
///
/// # Errors
///
/// [`ExpressionError::Other`] if it is not: a used component is out of bounds.
#[tactic(auto, using(module_context::proofs::Refusals::by_test))]
pub fn check_swizzle(
    context: &CheckContext<'_>,
    size: VectorSize,
    vector: Handle<key::Expression>,
    pattern: [SwizzleComponent; 4],
) -> Result<(), ExpressionError>
    ensures { MatchResult result
        (λ _. SwizzleOK size pattern (form_among (scene_in context.now).forms vector))
        (IsRefused (SwizzleOK size pattern (form_among (scene_in context.now).forms vector))) }
{
    refused_unless(is_swizzle(size, pattern, context.form_at(vector)))
}
