//! `As`: casts and bit casts.

ghost use Rattle.std.specs.Prelude.{◌≡◌, List};
ghost use Rattle.ir_types.specs.judged.Plain.{PlainType};
ghost use Rattle.spec_expressions.specs.judged.Conversions.{converted, as_type};
ghost use Rattle.typing_errors.specs.Answers.{form_answer};

use ir_kinds::{Bytes, Scalar, ScalarKind};
use ir_types::TypeInner;
use spec_expressions::TypingFault;
use typing_forms::{Form, TypeResolution};

// The scalar of this kind, with the given width or else its own.
const fn converted(kind: ScalarKind, convert: Option<Bytes>, scalar: Scalar) -> Scalar
    ensures { result ≡ converted kind convert scalar }
{
    match convert {
        Some(width) => Scalar { kind, width },
        None => Scalar {
            kind,
            width: scalar.width,
        },
    }
}

// The same shape with the new scalar.
pub(crate) fn as_type(
    kind: ScalarKind,
    convert: Option<Bytes>,
    of: Form,
) -> Result<TypeResolution, TypingFault>
    ensures { (types : List PlainType) → form_answer types result ≡ as_type kind convert of }
{
    match of {
        Form::Scalar(scalar) => Ok(TypeResolution::Value(TypeInner::Scalar(converted(
            kind, convert, scalar,
        )))),
        Form::Vector { size, scalar } => Ok(TypeResolution::Value(TypeInner::Vector {
            size,
            scalar: converted(kind, convert, scalar),
        })),
        Form::Matrix {
            columns,
            rows,
            scalar,
        } => Ok(TypeResolution::Value(TypeInner::Matrix {
            columns,
            rows,
            scalar: converted(kind, convert, scalar),
        })),
        _ => Err(TypingFault::IncompatibleOperands),
    }
}
