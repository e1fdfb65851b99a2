//! Image samples.

ghost use Rattle.std.specs.Prelude.{◌≡◌, List};
ghost use Rattle.ir_types.specs.judged.Plain.{PlainType};
ghost use Rattle.spec_expressions.specs.judged.ImageSamples.{texel_scalar, texel, depth_sample, image_sample_type};
ghost use Rattle.typing_errors.specs.Answers.{form_given, form_answer};

use ir_arena::handle::Handle;
use ir_kinds::{ImageClass, Scalar, ScalarKind, SwizzleComponent, VectorSize};
use ir_types::{TypeInner, key};
use spec_expressions::TypingFault;
use typing_forms::{Form, TypeResolution};

// The scalar of a texel of this kind.
pub(crate) const fn texel_scalar(kind: ScalarKind) -> Scalar
    ensures { result ≡ texel_scalar kind }
{
    Scalar { kind, width: 4 }
}

// A vector of four components.
pub(crate) fn texel(scalar: Scalar) -> TypeResolution
    ensures { (types : List PlainType) → form_given types result ≡ texel scalar }
{
    TypeResolution::Value(TypeInner::Vector {
        size: VectorSize::Quad,
        scalar,
    })
}

// A depth, or a vector of four of them if it is a gather.
fn depth_sample(gather: Option<SwizzleComponent>) -> TypeResolution
    ensures { (types : List PlainType) → form_given types result ≡ depth_sample gather }
{
    match gather {
        None => TypeResolution::Value(TypeInner::Scalar(Scalar::F32)),
        Some(_) => texel(Scalar::F32),
    }
}

// The type of an image sample.
pub(crate) fn image_sample_type(
    image: Handle<key::Expression>,
    gather: Option<SwizzleComponent>,
    of: Form,
) -> Result<TypeResolution, TypingFault>
    ensures { (types : List PlainType) → form_answer types result ≡ image_sample_type image gather of }
{
    match of {
        Form::Image {
            class: ImageClass::Sampled { kind, .. },
            ..
        } => Ok(texel(texel_scalar(kind))),
        Form::Image {
            class: ImageClass::Depth { .. },
            ..
        } => Ok(depth_sample(gather)),
        Form::Image {
            class: ImageClass::External,
            ..
        } => Ok(texel(Scalar::F32)),
        _ => Err(TypingFault::InvalidImage(image)),
    }
}
