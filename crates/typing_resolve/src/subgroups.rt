//! Results of subgroup operations.

ghost use Rattle.std.specs.Prelude.{◌≡◌, List};
ghost use Rattle.ir_types.specs.judged.Plain.{PlainType};
ghost use Rattle.ir_kinds.specs.declared.scalars.VectorSize.TheVariants.{Quad};
ghost use Rattle.ir_kinds.specs.judged.Scalars.{unsigned};
ghost use Rattle.typing_forms.specs.declared.form.Form.TheVariants as form;
ghost use Rattle.typing_errors.specs.Answers.{form_given};

use ir_kinds::{Scalar, VectorSize};
use ir_types::TypeInner;
use typing_forms::TypeResolution;

// The result of a ballot: one bit for each invocation.
pub(crate) fn ballot_type() -> TypeResolution
    ensures { (types : List PlainType) → form_given types result ≡ form.Vector Quad (unsigned 4) }
{
    TypeResolution::Value(TypeInner::Vector {
        size: VectorSize::Quad,
        scalar: Scalar::U32,
    })
}
