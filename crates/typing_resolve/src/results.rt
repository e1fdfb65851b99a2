//! Results of calls.

ghost use Rattle.std.specs.Prelude.{◌≡◌, ◌<◌, List, length, map, ok_or, option_and_then, option_map, slice_get};
ghost use Rattle.ir_items.specs.found.GlobalView.{values_of};
ghost use Rattle.ir_items.specs.found.View.{function_view};
ghost use Rattle.ir_items.specs.declared.functions.FunctionResult.{FunctionResult};
ghost use Rattle.ir_types.specs.judged.Plain.{PlainType};
ghost use Rattle.spec_expressions.specs.declared.faults.TypingFault.TheVariants.{FunctionReturnsVoid};
ghost use Rattle.typing_forms.specs.judged.Forms.{form_of_type};
ghost use Rattle.typing_errors.specs.Answers.{form_answer};

use ir_arena::arena::Arena;
use ir_arena::handle::Handle;
use ir_items::Function;
use ir_types::key;
use spec_expressions::TypingFault;
use typing_forms::TypeResolution;

// The type of a call result: the function's declared one.
#[tactic(auto, using(ir_items::proofs::Lookups::found))]
pub(crate) fn call_result_type(
    functions: &Arena<Function, key::Function>,
    function: Handle<key::Function>,
) -> Result<TypeResolution, TypingFault>
    requires { function < length functions.now }
    ensures { (types : List PlainType) → form_answer types result
        ≡ ok_or (option_map (λ (r : FunctionResult). form_of_type types r.ty)
        (option_and_then (λ f. f.result) (slice_get (map function_view (values_of functions.now)) function))) FunctionReturnsVoid }
{
    match functions[function].result {
        Some(result) => Ok(TypeResolution::Handle(result.ty)),
        None => Err(TypingFault::FunctionReturnsVoid),
    }
}
