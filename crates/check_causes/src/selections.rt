//! The broken rules of `Select`.

ghost use Rattle.std.specs.Prelude.{◌↔◌, IsTrue, MatchOption};
ghost use Rattle.check_causes.specs.Selections.{BrokenSelect};
ghost use Rattle.spec_statements.specs.judged.Selections.{ChoosesFrom, SelectOK};

use crate::shapes::is_of_value;
use ir_kinds::VectorSize;
use module_context::{are_same, is_truth, shaped_of};
use spec_statements::Shape;
use typing_forms::Form;

/// A broken rule of a `Select`.
#[derive(Clone, Copy)]
pub enum SelectCause {
    /// The two values have these types, which differ.
    Differ(Form, Form),
    /// The values have this type, which is neither a scalar nor a vector.
    NoValue(Form),
    /// The condition has this type, which is not a bool scalar or vector.
    NoCondition(Form),
    /// The condition has the first type, of bools, but its shape does not select between values of the second.
    Shape(Form, Form),
}

// Whether a bool vector of this size selects between values of a shape.
fn is_chosen_by_row(size: VectorSize, value: Shape) -> bool
    ensures { IsTrue result ↔ ChoosesFrom (Shape.Vector size) value }
{
    match value {
        Shape::Vector(other) => size == other,
        Shape::Scalar | Shape::Matrix { .. } | Shape::CooperativeMatrix { .. } => false,
    }
}

// Whether bools of one shape select between values of another.
fn chooses_from(condition: Shape, value: Shape) -> bool
    ensures { IsTrue result ↔ ChoosesFrom condition value }
{
    match condition {
        Shape::Scalar => true,
        Shape::Vector(size) => is_chosen_by_row(size, value),
        Shape::Matrix { .. } | Shape::CooperativeMatrix { .. } => false,
    }
}

/// The first broken rule of a `Select`, if any: the values have equal types, a scalar or a vector; the
/// condition is a bool, or a bool vector of the same size.
pub fn broken_select(condition: &Form, accept: &Form, reject: &Form) -> Option<SelectCause>
    ensures { MatchOption result (SelectOK condition.now accept.now reject.now) (BrokenSelect condition.now accept.now reject.now) }
{
    if !are_same(*accept, *reject) {
        return Some(SelectCause::Differ(*accept, *reject));
    }
    let Some(value) = shaped_of(*accept) else {
        return Some(SelectCause::NoValue(*accept));
    };
    if !is_of_value(value.shape) {
        return Some(SelectCause::NoValue(*accept));
    }
    let Some(by) = shaped_of(*condition) else {
        return Some(SelectCause::NoCondition(*condition));
    };
    if !is_truth(by.scalar.kind) {
        return Some(SelectCause::NoCondition(*condition));
    }
    if !chooses_from(by.shape, value.shape) {
        return Some(SelectCause::Shape(*condition, *accept));
    }
    None
}
