//! The broken rules of an optional integer operand.

ghost use Rattle.std.specs.Prelude.{◌≡◌, ◌↔◌, IsTrue, MatchOption};
ghost use Rattle.check_image_causes.specs.Numbers.{BrokenNumber};
ghost use Rattle.module_context.specs.OperandView.{scene_in};
ghost use Rattle.spec_statements.specs.judged.Scene.{form_among};
ghost use Rattle.spec_statements.specs.judged.Shapes.{IsIntegerScalar, ExactlyIf, coordinate_form};

use ir_arena::handle::Handle;
use ir_kinds::{ImageDimension, Scalar, VectorSize};
use ir_types::key;
use module_context::{CheckContext, is_integer_scalar};
use typing_forms::Form;

/// A broken rule of an integer operand that must be present exactly if the image has such a dimension.
#[derive(Clone, Copy)]
pub enum NumberCause {
    /// The operand is required, but missing.
    Missing,
    /// The operand is present, but not allowed.
    Unwanted,
    /// The operand has this type, which is not an integer scalar.
    NoInteger(Form),
}

/// The broken rule of an operand that must be present exactly if it is required, and an integer scalar.
pub(crate) fn broken_number(
    context: &CheckContext<'_>,
    wanted: bool,
    given: Option<Handle<key::Expression>>,
) -> Option<NumberCause>
    ensures { MatchOption result
        (ExactlyIf wanted given (λ number. IsIntegerScalar (form_among (scene_in context.now).forms number)))
        (BrokenNumber (scene_in context.now).forms wanted given) }
{
    match given {
        Some(number) => {
            if !wanted {
                Some(NumberCause::Unwanted)
            } else if is_integer_scalar(context.form_at(number)) {
                None
            } else {
                Some(NumberCause::NoInteger(context.form_at(number)))
            }
        }
        None => {
            if wanted {
                Some(NumberCause::Missing)
            } else {
                None
            }
        }
    }
}

/// The type of a coordinate for an image of these dimensions.
pub(crate) const fn along(dim: ImageDimension, scalar: Scalar) -> Form
    ensures { result ≡ coordinate_form dim scalar }
{
    match dim {
        ImageDimension::D1 => Form::Scalar(scalar),
        ImageDimension::D2 => Form::Vector {
            size: VectorSize::Bi,
            scalar,
        },
        ImageDimension::D3 | ImageDimension::Cube => Form::Vector {
            size: VectorSize::Tri,
            scalar,
        },
    }
}
