//! Whether calls pass as many arguments as their functions have.

ghost use Rattle.std.specs.Prelude.{MatchResult};
ghost use Rattle.function_interface.specs.Arities.{IsArityFaultAt};
ghost use Rattle.ir_items.specs.found.View.{function_view, module_view};
ghost use Rattle.ir_places.specs.Paths.{IsPlaced};
ghost use Rattle.spec_expressions.specs.judged.FunctionHandles.{HandlesInRange};
ghost use Rattle.spec_expressions.specs.judged.CallArities.{AritiesMatch};

use ir_items::{Function, Module};
use ir_places::Trail;
use typing_errors::{CallError, FunctionError};
use typing_handles::arity_fault;

/// Whether each call in a function passes as many arguments as its callee has. Requires that the callees exist.
///
/// # Errors
///
/// [`FunctionError::InvalidCall`] with [`CallError::ArgumentCount`] for a call that does not, at the place of the trail (the
/// first in text order, which no clause states).
pub fn check_arities(
    trail: &mut Trail,
    module: &Module,
    function: &Function,
) -> Result<(), FunctionError>
    requires { HandlesInRange (module_view «module».now) (function_view function.now) }
    ensures { MatchResult result
        (λ _. AritiesMatch (module_view «module».now) (function_view function.now))
        (λ e. IsPlaced trail.new (IsArityFaultAt (module_view «module».now) (function_view function.now) e)) }
{
    match arity_fault(trail, function, module) {
        None => Ok(()),
        Some(fault) => match fault.required {
            Some(required) => {
                let error = CallError::ArgumentCount {
                    required,
                    seen: fault.seen,
                };
                Err(FunctionError::InvalidCall {
                    function: fault.function,
                    error,
                })
            }
            None => Ok(()),
        },
    }
}
