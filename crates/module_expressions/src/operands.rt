//! The operands that locate a texel.

ghost use Rattle.std.specs.Prelude.{◌≡◌, ◌↔◌, IsTrue};
ghost use Rattle.module_context.specs.OperandView.{scene_in};
ghost use Rattle.spec_statements.specs.judged.Scene.{form_among};
ghost use Rattle.spec_statements.specs.judged.Shapes.{IsIntegerScalar, ExactlyIf, coordinate_form};

use ir_arena::handle::Handle;
use ir_kinds::{ImageDimension, Scalar, VectorSize};
use ir_types::key;
use module_context::{CheckContext, is_integer_scalar};
use typing_forms::Form;

/// The type of a coordinate for an image of these dimensions.
pub(crate) const fn along(dim: ImageDimension, scalar: Scalar) -> Form
    ensures { result ≡ coordinate_form dim scalar }
{
    match dim {
        ImageDimension::D1 => Form::Scalar(scalar),
        ImageDimension::D2 => Form::Vector {
            size: VectorSize::Bi,
            scalar,
        },
        ImageDimension::D3 | ImageDimension::Cube => Form::Vector {
            size: VectorSize::Tri,
            scalar,
        },
    }
}

/// Whether an integer operand is present exactly if it is required.
pub(crate) fn is_number_if(
    context: &CheckContext<'_>,
    wanted: bool,
    given: Option<Handle<key::Expression>>,
) -> bool
    ensures { IsTrue result ↔ ExactlyIf wanted given (λ number. IsIntegerScalar (form_among (scene_in context.now).forms number)) }
{
    match given {
        Some(number) => {
            if wanted {
                is_integer_scalar(context.form_at(number))
            } else {
                false
            }
        }
        None => !wanted,
    }
}
