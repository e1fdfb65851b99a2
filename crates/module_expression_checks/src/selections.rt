//! The checks of `Select` and `Relational`.

ghost use Rattle.std.specs.Prelude.{◌↔◌, IsTrue, MatchResult};
ghost use Rattle.module_context.specs.Refused.{IsRefused};
ghost use Rattle.module_context.specs.OperandView.{scene_in};
ghost use Rattle.spec_statements.specs.judged.Scene.{form_among};
ghost use Rattle.spec_statements.specs.judged.Selections.{ChoosesFrom, IsCondition, SelectOK, RelationalOK};
ghost use Rattle.spec_statements.specs.judged.Shapes.{IsVectorShape, IsScalarOrVector, IsFloating, IsBool, IsMadeOf};

use crate::shapes::is_of_value;
use ir_arena::handle::Handle;
use ir_kinds::{RelationalFunction, VectorSize};
use ir_types::key;
use module_context::{CheckContext, are_same, is_floating, is_truth, refused_unless, shaped_of};
use spec_statements::Shape;
use typing_errors::ExpressionError;
use typing_forms::Form;

// ---- selections

// Whether a bool vector of this size selects between values of a shape.
fn is_chosen_by_row(size: VectorSize, value: Shape) -> bool
    ensures { IsTrue result ↔ ChoosesFrom (Shape.Vector size) value }
{
    match value {
        Shape::Vector(other) => size == other,
        Shape::Scalar | Shape::Matrix { .. } | Shape::CooperativeMatrix { .. } => false,
    }
}

// Whether bools of one shape select between values of another.
fn chooses_from(condition: Shape, value: Shape) -> bool
    ensures { IsTrue result ↔ ChoosesFrom condition value }
{
    match condition {
        Shape::Scalar => true,
        Shape::Vector(size) => is_chosen_by_row(size, value),
        Shape::Matrix { .. } | Shape::CooperativeMatrix { .. } => false,
    }
}

// Whether a type is that of a condition for values of a shape.
fn is_condition(condition: Form, value: Shape) -> bool
    ensures { IsTrue result ↔ IsCondition condition value }
{
    match shaped_of(condition) {
        Some(shaped) => is_truth(shaped.scalar.kind) && chooses_from(shaped.shape, value),
        None => false,
    }
}

// Whether a condition selects between two values.
fn is_selection(condition: &Form, accept: &Form, reject: &Form) -> bool
    ensures { IsTrue result ↔ SelectOK condition.now accept.now reject.now }
{
    if !are_same(*accept, *reject) {
        return false;
    }
    match shaped_of(*accept) {
        Some(shaped) => is_of_value(shaped.shape) && is_condition(*condition, shaped.shape),
        None => false,
    }
}

/// Whether a condition selects between two values.
///
/// # Errors
///
/// [`ExpressionError::Other`] if it does not.
#[tactic(auto, using(module_context::proofs::Refusals::by_test))]
pub fn check_select(
    context: &CheckContext<'_>,
    condition: Handle<key::Expression>,
    accept: Handle<key::Expression>,
    reject: Handle<key::Expression>,
) -> Result<(), ExpressionError>
    ensures { MatchResult result
        (λ _. SelectOK (form_among (scene_in context.now).forms condition) (form_among (scene_in context.now).forms accept) (form_among (scene_in context.now).forms reject))
        (IsRefused (SelectOK (form_among (scene_in context.now).forms condition) (form_among (scene_in context.now).forms accept) (form_among (scene_in context.now).forms reject))) }
{
    let condition = context.form_at(condition);
    let accept = context.form_at(accept);
    let reject = context.form_at(reject);
    refused_unless(is_selection(&condition, &accept, &reject))
}

// ---- relational functions

// Whether a shape is a vector.
const fn is_row(shape: Shape) -> bool
    ensures { IsTrue result ↔ IsVectorShape shape }
{
    match shape {
        Shape::Vector(_) => true,
        Shape::Scalar | Shape::Matrix { .. } | Shape::CooperativeMatrix { .. } => false,
    }
}

// Whether a type is a bool vector.
fn is_row_of_truths(of: Form) -> bool
    ensures { IsTrue result ↔ IsMadeOf IsVectorShape IsBool of }
{
    match shaped_of(of) {
        Some(shaped) => is_row(shaped.shape) && is_truth(shaped.scalar.kind),
        None => false,
    }
}

// Whether a type is a float scalar or vector.
fn is_of_floats(of: Form) -> bool
    ensures { IsTrue result ↔ IsMadeOf IsScalarOrVector IsFloating of }
{
    match shaped_of(of) {
        Some(shaped) => is_of_value(shaped.shape) && is_floating(shaped.scalar.kind),
        None => false,
    }
}

// Whether a relational function takes a value of a type.
fn relates(fun: RelationalFunction, of: Form) -> bool
    ensures { IsTrue result ↔ RelationalOK fun of }
{
    match fun {
        RelationalFunction::All | RelationalFunction::Any => is_row_of_truths(of),
        RelationalFunction::IsNan | RelationalFunction::IsInf => is_of_floats(of),
    }
}

/// Whether a relational function takes its argument.
///
/// # Errors
///
/// [`ExpressionError::Other`] if it does not.
#[tactic(auto, using(module_context::proofs::Refusals::by_test))]
pub fn check_relational(
    context: &CheckContext<'_>,
    fun: RelationalFunction,
    argument: Handle<key::Expression>,
) -> Result<(), ExpressionError>
    ensures { MatchResult result
        (λ _. RelationalOK fun (form_among (scene_in context.now).forms argument))
        (IsRefused (RelationalOK fun (form_among (scene_in context.now).forms argument))) }
{
    refused_unless(relates(fun, context.form_at(argument)))
}
