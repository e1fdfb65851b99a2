//! Image loads and image queries.

ghost use Rattle.std.specs.Prelude.{◌≡◌, List, None};
ghost use Rattle.ir_types.specs.judged.Plain.{PlainType, inner_view};
ghost use Rattle.spec_expressions.specs.judged.ImageLoads.{loaded_texel, image_load_type, extent, size_type, image_query_type};
ghost use Rattle.typing_forms.specs.judged.Forms.{form_in};
ghost use Rattle.typing_errors.specs.Answers.{form_given, form_answer};

use crate::image_samples::{texel, texel_scalar};
use ir_arena::handle::Handle;
use ir_kinds::{ImageClass, ImageDimension, Scalar, VectorSize};
use ir_types::{ImageQuery, TypeInner, key};
use spec_expressions::TypingFault;
use typing_forms::{Form, TypeResolution};

// The type of a texel.
fn loaded_texel(class: ImageClass) -> TypeResolution
    ensures { (types : List PlainType) → form_given types result ≡ loaded_texel class }
{
    match class {
        ImageClass::Sampled { kind, .. } => texel(texel_scalar(kind)),
        ImageClass::Depth { .. } => TypeResolution::Value(TypeInner::Scalar(Scalar::F32)),
        ImageClass::External => texel(Scalar::F32),
        ImageClass::Storage { format, .. } => texel(Scalar::from(format)),
    }
}

// The type of an image load.
pub(crate) fn image_load_type(
    image: Handle<key::Expression>,
    of: Form,
) -> Result<TypeResolution, TypingFault>
    ensures { (types : List PlainType) → form_answer types result ≡ image_load_type image of }
{
    match of {
        Form::Image { class, .. } => Ok(loaded_texel(class)),
        _ => Err(TypingFault::InvalidImage(image)),
    }
}

// The number of texels in each dimension.
fn extent(dim: ImageDimension) -> TypeInner
    ensures { (types : List PlainType) → form_in types None (inner_view result) ≡ extent dim }
{
    match dim {
        ImageDimension::D1 => TypeInner::Scalar(Scalar::U32),
        ImageDimension::D2 | ImageDimension::Cube => TypeInner::Vector {
            size: VectorSize::Bi,
            scalar: Scalar::U32,
        },
        ImageDimension::D3 => TypeInner::Vector {
            size: VectorSize::Tri,
            scalar: Scalar::U32,
        },
    }
}

// The type of an image size.
fn size_type(image: Handle<key::Expression>, of: Form) -> Result<TypeResolution, TypingFault>
    ensures { (types : List PlainType) → form_answer types result ≡ size_type image of }
{
    match of {
        Form::Image { dim, .. } => Ok(TypeResolution::Value(extent(dim))),
        _ => Err(TypingFault::InvalidImage(image)),
    }
}

// The type of an image query.
pub(crate) fn image_query_type(
    image: Handle<key::Expression>,
    query: ImageQuery,
    of: Form,
) -> Result<TypeResolution, TypingFault>
    ensures { (types : List PlainType) → form_answer types result ≡ image_query_type image query of }
{
    match query {
        ImageQuery::Size { .. } => size_type(image, of),
        ImageQuery::NumLevels | ImageQuery::NumLayers | ImageQuery::NumSamples => {
            Ok(TypeResolution::Value(TypeInner::Scalar(Scalar::U32)))
        }
    }
}
