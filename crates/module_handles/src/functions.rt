//! Handles of functions.

ghost use Rattle.std.specs.Option.{MatchOption};
ghost use Rattle.ir_items.specs.found.View.{module_view};
ghost use Rattle.module_handles.specs.InOrder.{IsFaultIn, FunctionsOK};

use crate::lists::{ItemCheck, fault_of_values};
use ir_items::{Function, Module};
use typing_references::{HandleFault, forward_callee, forward_operand, missing_in_function};

// The functions of a module.
#[derive(Drop)]
struct Functions<'a> {
    module: &'a Module,
}

impl ItemCheck<Function> for Functions<'_> {
    ghost use Rattle.ir_items.specs.found.View.{function_view, module_view};
    ghost use Rattle.typing_handles.specs.Conditions.{FunctionConditions};
    ghost use Rattle.module_handles.specs.InOrder.{IsFunctionFault};

    ghost passes = { λ t i f. FunctionConditions (module_view t.«module».now) i (function_view f) };

    ghost fails = { λ t i f h. IsFunctionFault (module_view t.«module».now) i (function_view f) h };

    fn check(&self, index: usize, function: &Function) -> Option<HandleFault> {
        if let Some(fault) = missing_in_function(function, self.module) {
            return Some(fault);
        }
        if let Some(fault) = forward_operand(&function.expressions) {
            return Some(fault);
        }
        forward_callee(function, index)
    }
}

/// The error of a handle of a function, if it is out of bounds or a required forward dependency.
pub(crate) fn fault_of_functions(module: &Module) -> Option<HandleFault>
    ensures { MatchOption result (FunctionsOK (module_view «module».now)) (IsFaultIn (module_view «module».now)) }
{
    let functions = Functions { module };
    fault_of_values(&functions, &module.functions)
}
