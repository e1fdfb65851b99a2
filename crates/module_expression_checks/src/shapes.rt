//! Shape tests that several families share.

ghost use Rattle.std.specs.Prelude.{◌↔◌, IsTrue};
ghost use Rattle.spec_statements.specs.judged.Shapes.{IsScalarShape, IsScalarOrVector, IsBool, IsMadeOf};

use module_context::{is_truth, shaped_of};
use spec_statements::Shape;
use typing_forms::Form;

/// Whether a shape is a scalar.
pub const fn is_alone(shape: Shape) -> bool
    ensures { IsTrue result ↔ IsScalarShape shape }
{
    match shape {
        Shape::Scalar => true,
        Shape::Vector(_) | Shape::Matrix { .. } | Shape::CooperativeMatrix { .. } => false,
    }
}

/// Whether a shape is a scalar or a vector.
pub const fn is_of_value(shape: Shape) -> bool
    ensures { IsTrue result ↔ IsScalarOrVector shape }
{
    match shape {
        Shape::Scalar | Shape::Vector(_) => true,
        Shape::Matrix { .. } | Shape::CooperativeMatrix { .. } => false,
    }
}

/// Whether a type is `bool`.
pub(crate) fn is_one_truth(of: Form) -> bool
    ensures { IsTrue result ↔ IsMadeOf IsScalarShape IsBool of }
{
    match shaped_of(of) {
        Some(shaped) => is_alone(shaped.shape) && is_truth(shaped.scalar.kind),
        None => false,
    }
}
