//! The result of a rule, as the type of an expression.

ghost use Rattle.std.specs.Prelude.{◌≡◌, ℕ, List, Option, None, Some, IfOk, IfErr};
ghost use Rattle.ir_kinds.specs.declared.predeclared.PredeclaredType.{PredeclaredType};
ghost use Rattle.ir_items.specs.found.GlobalView.{special_view};
ghost use Rattle.typing_layout.specs.TypingForms.{PlainResolution, resolution_view};

use ir_items::SpecialTypes;
use thiserror::Error;
use typing_layout::typing_forms::TypeResolution;
use typing_rules::Conclusion;

/// The module lacks the special type of a function's result (naga's `MissingSpecialType`).
#[derive(Clone, Copy, PartialEq, Eq, Debug, Error)]
#[error("the module has no predeclared type for the result of the function")]
pub struct MissingSpecialType;

/// Conclusions that depend on a module (a method of naga's `Conclusion`).
pub trait ConclusionExt: Sized {
    // The type of the conclusion, given the handles of these predeclared types.
    ghost given: { Self → List (PredeclaredType × ℕ) → Option PlainResolution };

    /// The type of the conclusion: an inner type, or the module's handle for a predeclared struct (naga's
    /// `Conclusion::into_resolution`). The error is that the module lacks it.
    fn into_resolution(
        self,
        special_types: &SpecialTypes,
    ) -> Result<TypeResolution, MissingSpecialType>
        ensures given { IfOk result (λ r. given self (special_view special_types.now).predeclared
            ≡ Some (resolution_view r)) }
        ensures missing { IfErr result (λ _. given self (special_view special_types.now).predeclared ≡ None) };
}

impl ConclusionExt for Conclusion {
    ghost use Rattle.spec_expressions.specs.judged.Given.{given_type};

    ghost given = { given_type };

    #[tactic(auto, using(crate::proofs::Keys::handle_found))]
    fn into_resolution(
        self,
        special_types: &SpecialTypes,
    ) -> Result<TypeResolution, MissingSpecialType> {
        match self {
            Conclusion::Value(value) => Ok(TypeResolution::Value(value.to_inner())),
            Conclusion::Predeclared(key) => match special_types.predeclared_types.get(&key) {
                Some(handle) => Ok(TypeResolution::Handle(*handle)),
                None => Err(MissingSpecialType),
            },
        }
    }
}
