//! Shape tests that several families share.

ghost use Rattle.std.specs.Prelude.{◌↔◌, IsTrue};
ghost use Rattle.spec_statements.specs.judged.Shapes.{IsScalarShape, IsScalarOrVector};

use spec_statements::Shape;

/// Whether a shape is a scalar.
pub(crate) const fn is_alone(shape: Shape) -> bool
    ensures { IsTrue result ↔ IsScalarShape shape }
{
    match shape {
        Shape::Scalar => true,
        Shape::Vector(_) | Shape::Matrix { .. } | Shape::CooperativeMatrix { .. } => false,
    }
}

/// Whether a shape is a scalar or a vector.
pub(crate) const fn is_of_value(shape: Shape) -> bool
    ensures { IsTrue result ↔ IsScalarOrVector shape }
{
    match shape {
        Shape::Scalar | Shape::Vector(_) => true,
        Shape::Matrix { .. } | Shape::CooperativeMatrix { .. } => false,
    }
}
