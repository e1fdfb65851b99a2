// Which functions of a module are valid over the small layer.

ghost use Rattle.std.specs.Prelude.{◌≡◌, IsTrue};
ghost use Rattle.ir_items.specs.found.View.{function_view, module_view};
ghost use Rattle.ir_items.specs.found.Filters.{ParentsPrecede};
ghost use Rattle.spec_expressions.specs.judged.FunctionHandles.{HandlesInRange, OperandsPrecede};
ghost use Rattle.function_tiny_lower.specs.Readings.{IsMadeOf};

use crate::layer_made::lower_for;
use function_interface::Lower;
use function_tiny_lower::{TinyInfo, TinyLower};
use ir_flags::{Capabilities, ShaderStages, ValidationFlags};
use ir_items::{Function, Module};
use ir_types::refusal::Refusal;
use shader_check::{DocumentError, Validator, read_document};
use std::alloc::{AllocError, Global};
use test_support::call::{completed, freeing, push};
use typing_errors::FunctionError;
use typing_handles::{filter_parents_precede, handles_in_range, operands_precede};

// Whether the handles of a function are in order.
fn is_in_order(function: &Function, module: &Module) -> bool
    ensures handles { IsTrue result → HandlesInRange (module_view «module».now) (function_view function.now) }
    ensures precede { IsTrue result → OperandsPrecede (function_view function.now).expressions }
    ensures parents { IsTrue result → ParentsPrecede (module_view «module».now).filters }
{
    handles_in_range(function, module)
        && operands_precede(function, module)
        && filter_parents_precede(function, module)
}

// A word for an error.
fn word_of(error: &FunctionError) -> &'static str {
    match error {
        FunctionError::Expression { .. } => "expression",
        FunctionError::InvalidReturnType { .. } => "return",
        FunctionError::InvalidCall { .. } => "call",
        FunctionError::InvalidIfType(_) => "condition",
        _ => "another fault",
    }
}

// The information on a function, or nothing after its error is printed.
fn judge(
    validator: &mut Validator<TinyLower>,
    told: &mut String,
    module: &Module,
    function: &Function,
    kept: &[TinyInfo],
) -> Result<Option<TinyInfo>, AllocError>
    requires { IsMadeOf (module_view «module».now) validator.old.lower.infos.items }
    ensures { validator.new.lower ≡ validator.old.lower }
{
    if !is_in_order(function, module) {
        told.push_str("out of order")?;
        return Ok(None);
    }
    match validator.validate_function(function, module, kept, false) {
        Ok(info) => Ok(Some(info)),
        Err(Refusal::Memory(error)) => Err(error),
        Err(Refusal::Fault(fault)) => {
            let done = told.push_str(word_of(fault.as_inner()));
            completed(freeing(done, fault), None)
        }
    }
}

// Prints the stages that may run a function.
fn tell_stages(alloc: Global, told: &mut String, stages: ShaderStages) -> Result<(), AllocError> {
    push(told, format!(in alloc; "accepted {} ", stages.0))
}

// Prints the result for each function of the module up to the first invalid one, and keeps their information in a list.
fn tell_all(
    alloc: Global,
    validator: &mut Validator<TinyLower>,
    told: &mut String,
    module: &Module,
    kept: &mut Vec<TinyInfo>,
) -> Result<(), AllocError>
    requires { IsMadeOf (module_view «module».now) validator.old.lower.infos.items }
{
    for (_, function) in module.functions.iter() {
        match judge(validator, told, module, function, kept.as_slice()) {
            Ok(Some(info)) => {
                tell_stages(alloc, told, validator.lower.stages(&info))?;
                kept.push(info)?;
            }
            Ok(None) => return Ok(()),
            Err(error) => return Err(error),
        }
    }
    Ok(())
}

// The results for the functions of a module by a validator made for it, beside an empty list.
fn reported_by(
    alloc: Global,
    validator: &mut Validator<TinyLower>,
    module: &Module,
    kept: &mut Vec<TinyInfo>,
) -> Result<String, AllocError>
    requires { IsMadeOf (module_view «module».now) validator.old.lower.infos.items }
{
    let mut told = String::new(alloc);
    completed(tell_all(alloc, validator, &mut told, module, kept), told)
}

// The results for the functions of a module in order, up to the first invalid one. The error is out of memory.
fn reported_of(
    alloc: Global,
    flags: ValidationFlags,
    module: &Module,
) -> Result<String, AllocError> {
    let Some(lower) = lower_for(alloc, module)? else {
        return String::from_str(alloc, "no layer");
    };
    let mut validator = Validator::new(alloc, lower, flags, Capabilities(0));
    let mut kept: Vec<TinyInfo> = Vec::new(alloc);
    let reported = freeing(reported_by(alloc, &mut validator, module, &mut kept), kept);
    freeing(reported, validator)
}

/// The results for the functions of the document in a string, over the small layer.
pub fn of_document(alloc: Global, text: &str) -> Result<String, AllocError> {
    match read_document(alloc, text.as_bytes()) {
        Ok(document) => freeing(
            reported_of(alloc, document.settings.flags, &document.module),
            document,
        ),
        Err(DocumentError::Memory) => Err(AllocError),
        Err(_) => String::from_str(alloc, "no document"),
    }
}
