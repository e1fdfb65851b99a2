//! Splats and swizzles.

ghost use Rattle.std.specs.Prelude.{◌≡◌, List};
ghost use Rattle.ir_types.specs.judged.Plain.{PlainType};
ghost use Rattle.spec_expressions.specs.judged.Compositions.{splat_type, swizzle_type};
ghost use Rattle.typing_errors.specs.Answers.{form_answer};

use ir_arena::handle::Handle;
use ir_kinds::VectorSize;
use ir_types::{TypeInner, key};
use spec_expressions::TypingFault;
use typing_forms::{Form, TypeResolution};

// The type of a splat.
pub(crate) fn splat_type(
    size: VectorSize,
    value: Handle<key::Expression>,
    of: Form,
) -> Result<TypeResolution, TypingFault>
    ensures { (types : List PlainType) → form_answer types result ≡ splat_type size value of }
{
    match of {
        Form::Scalar(scalar) => Ok(TypeResolution::Value(TypeInner::Vector { size, scalar })),
        _ => Err(TypingFault::InvalidScalar(value)),
    }
}

// The type of a swizzle of this size.
pub(crate) fn swizzle_type(
    size: VectorSize,
    vector: Handle<key::Expression>,
    of: Form,
) -> Result<TypeResolution, TypingFault>
    ensures { (types : List PlainType) → form_answer types result ≡ swizzle_type size vector of }
{
    match of {
        Form::Vector { scalar, .. } => {
            Ok(TypeResolution::Value(TypeInner::Vector { size, scalar }))
        }
        _ => Err(TypingFault::InvalidVector(vector)),
    }
}
