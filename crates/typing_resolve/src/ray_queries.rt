//! Results of ray queries.

ghost use Rattle.std.specs.Prelude.{◌≡◌, List, ok_or, option_map};
ghost use Rattle.ir_types.specs.judged.Plain.{PlainType};
ghost use Rattle.ir_kinds.specs.judged.Scalars.{boolean};
ghost use Rattle.typing_forms.specs.declared.form.Form.TheVariants as form;
ghost use Rattle.spec_expressions.specs.declared.faults.TypingFault.TheVariants.{MissingSpecialType};
ghost use Rattle.typing_forms.specs.judged.Forms.{form_of_type};
ghost use Rattle.typing_errors.specs.Answers.{form_given, form_answer};

use ir_arena::handle::Handle;
use ir_kinds::Scalar;
use ir_types::{TypeInner, key};
use spec_expressions::TypingFault;
use typing_forms::TypeResolution;

// A special type, if the module has it.
pub(crate) fn special_type(
    special: Option<Handle<key::IrType>>,
) -> Result<TypeResolution, TypingFault>
    ensures { (types : List PlainType) → form_answer types result ≡ ok_or (option_map (form_of_type types) special) MissingSpecialType }
{
    match special {
        Some(ty) => Ok(TypeResolution::Handle(ty)),
        None => Err(TypingFault::MissingSpecialType),
    }
}

// The result of `Proceed`: a bool.
pub(crate) fn proceed_type() -> TypeResolution
    ensures { (types : List PlainType) → form_given types result ≡ form.Scalar boolean }
{
    TypeResolution::Value(TypeInner::Scalar(Scalar::BOOL))
}
