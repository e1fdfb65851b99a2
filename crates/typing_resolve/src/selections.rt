//! Selections and relational functions.

ghost use Rattle.std.specs.Prelude.{◌≡◌, List};
ghost use Rattle.ir_types.specs.judged.Plain.{PlainType};
ghost use Rattle.spec_expressions.specs.judged.Selections.{relational_type};
ghost use Rattle.typing_errors.specs.Answers.{form_answer};

use crate::operators::truth_of;
use ir_kinds::{RelationalFunction, Scalar};
use ir_types::TypeInner;
use typing_errors::Typing;
use typing_forms::{Form, TypeResolution};

// The type of a relational function: `All` and `Any` give one bool; `IsNan` and `IsInf` one per component.
pub(crate) fn relational_type(fun: RelationalFunction, of: Form) -> Typing
    ensures { (types : List PlainType) → form_answer types result ≡ relational_type fun of }
{
    match fun {
        RelationalFunction::All | RelationalFunction::Any => {
            Ok(TypeResolution::Value(TypeInner::Scalar(Scalar::BOOL)))
        }
        RelationalFunction::IsNan | RelationalFunction::IsInf => truth_of(of),
    }
}
