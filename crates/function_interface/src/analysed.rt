//! The analysis of a function whose calls pass as many arguments as their functions have.

ghost use Rattle.std.specs.Prelude.{IfErr, IfOk, OnOk, map};
ghost use Rattle.function_interface.specs.Analysis.{IsFaultBefore, IsKept, IsRefusedAt};
ghost use Rattle.function_interface.specs.Question.{question};
ghost use Rattle.ir_items.specs.found.View.{function_view, module_view};
ghost use Rattle.ir_items.specs.found.Filters.{ParentsPrecede};
ghost use Rattle.spec_expressions.specs.judged.FunctionHandles.{HandlesInRange, OperandsPrecede};
ghost use Rattle.spec_expressions.specs.judged.CallArities.{AritiesMatch};

use crate::arities::check_arities;
use crate::lower::Lower;
use ir_flags::ValidationFlags;
use ir_items::{Function, Module};
use ir_places::Trail;
use ir_types::refusal::Refusal;
use ir_types::with_span::WithSpan;
use std::alloc::Global;
use typing_errors::FunctionError;

/// The layer's information on a function, after the arity of its calls was checked, under any flags. `callees` has the
/// information on earlier functions, in which stages and uses may have been noted since. Requires that the layer was made for
/// the module, and that the function's handles are in order.
///
/// # Errors
///
/// [`Refusal::Fault`] with [`FunctionError::InvalidCall`] for a call with another number of arguments, at the place of the
/// trail, else an error of the analysis. [`Refusal::Memory`] if out of memory.
pub fn analyse_function<L: Lower>(
    lower: &L,
    alloc: Global,
    trail: &mut Trail,
    module: &Module,
    function: &Function,
    callees: &[L::Info],
    flags: ValidationFlags,
) -> Result<L::Info, Refusal<FunctionError>>
    requires made { L.is_for lower.now (module_view «module».now) }
    requires handles { HandlesInRange (module_view «module».now) (function_view function.now) }
    requires precede { OperandsPrecede (function_view function.now).expressions }
    requires parents { ParentsPrecede (module_view «module».now).filters }
    ensures arities { OnOk result (AritiesMatch (module_view «module».now) (function_view function.now)) }
    ensures kept { let q = question (module_view «module».now) (function_view function.now) (map (L.summary lower.now) callees.now) (map (L.noted lower.now) callees.now) in
        IfOk result (λ info. IsKept (L.reading lower.now q) flags q (L.types lower.now info) (L.summary lower.now info) (L.noted lower.now info) (L.blending lower.now info)) }
    ensures fault { let q = question (module_view «module».now) (function_view function.now) (map (L.summary lower.now) callees.now) (map (L.noted lower.now) callees.now) in
        IfErr result (IsRefusedAt trail.new (IsFaultBefore (L.faults lower.now q) flags q.m q.f)) }
    ensures own { IfOk result (L.own lower.now (module_view «module».now) (function_view function.now)) }
{
    match check_arities(trail, module, function) {
        Ok(()) => {}
        Err(error) => return Err(Refusal::Fault(WithSpan::new(alloc, error))),
    }
    match lower.analyse(alloc, module, function, callees, flags) {
        Ok(info) => Ok(info),
        Err(refusal) => Err(refusal),
    }
}
