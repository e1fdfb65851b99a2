// The analysis of functions, from their own bodies and from the analysis of the functions that they call.
ghost use Rattle.std.specs.Prelude.{IsTrue};
ghost use Rattle.ir_items.specs.found.View.{function_view, module_view};
ghost use Rattle.ir_items.specs.found.Filters.{ParentsPrecede};
ghost use Rattle.spec_expressions.specs.judged.FunctionHandles.{HandlesInRange, OperandsPrecede};

use ir_flags::ValidationFlags;
use ir_items::{Function, Module};
use ir_types::refusal::Refusal;
use spec_expressions::{ExpressionInfo, GlobalOrArgument, GlobalUse, SamplingKey, SamplingPair};
use std::alloc::{AllocError, Global};
use test_support::call::{completed, freeing, push};
use typing_analysis::process_function;
use typing_errors::{ExpressionError, FunctionError};
use typing_handles::{
    arities_match, callees_precede, filter_parents_precede, handles_in_range, operands_precede,
};
use typing_infos::FunctionInfo;

// Prints of an expression its reference count, the global variable it originates from, whether it is uniform, and what it
// requires.
fn tell_expression(
    alloc: Global,
    told: &mut String,
    info: &ExpressionInfo,
) -> Result<(), AllocError> {
    push(told, format!(in alloc; "{}", info.ref_count))?;
    if let Some(global) = info.assignable_global {
        push(told, format!(in alloc; "g{}", global.index()))?;
    }
    if info.uniformity.non_uniform_result.is_some() {
        told.push_str("n")?;
    }
    push(
        told,
        format!(in alloc; "r{};", info.uniformity.requirements.0),
    )
}

// Prints the expressions of a function, one by one.
fn tell_expressions(
    alloc: Global,
    told: &mut String,
    infos: &[ExpressionInfo],
) -> Result<(), AllocError> {
    for info in infos {
        tell_expression(alloc, told, info)?;
    }
    Ok(())
}

// Prints the use of each global variable, as the number of its bits.
fn tell_uses(alloc: Global, told: &mut String, uses: &[GlobalUse]) -> Result<(), AllocError> {
    for kind in uses {
        push(told, format!(in alloc; "{}.", kind.0))?;
    }
    Ok(())
}

// The index of an image or a sampler among all global variables followed by all arguments.
fn place_of(part: GlobalOrArgument, globals: usize) -> usize {
    match part {
        GlobalOrArgument::Global(global) => global.index(),
        GlobalOrArgument::Argument(number) => globals.saturating_add(number as usize),
    }
}

// Whether the image and the sampler at these indices are a sampling pair.
fn is_pair(pairs: &[SamplingPair], image: usize, sampler: usize, globals: usize) -> bool {
    for pair in pairs {
        if place_of(pair.0, globals) == image && place_of(pair.1, globals) == sampler {
            return true;
        }
    }
    false
}

// Prints the sampling pairs of the image at an index.
fn tell_pairs_of(
    alloc: Global,
    told: &mut String,
    info: &FunctionInfo,
    image: usize,
    count: usize,
) -> Result<(), AllocError> {
    let globals = info.global_variable_count();
    for sampler in 0..count {
        if is_pair(info.pairs(), image, sampler, globals) {
            push(told, format!(in alloc; "{image}-{sampler}."))?;
        }
    }
    Ok(())
}

// Prints the sampling pairs, by indices.
fn tell_pairs(
    alloc: Global,
    told: &mut String,
    info: &FunctionInfo,
    count: usize,
) -> Result<(), AllocError> {
    for image in 0..count {
        tell_pairs_of(alloc, told, info, image, count)?;
    }
    Ok(())
}

// Prints the pairs of two global variables, by indices, in the order of the set.
fn tell_set(alloc: Global, told: &mut String, set: &[SamplingKey]) -> Result<(), AllocError> {
    for key in set {
        let image = key.image.index();
        let sampler = key.sampler.index();
        push(told, format!(in alloc; "{image}-{sampler}."))?;
    }
    Ok(())
}

// Prints the information on a function.
fn tell_info(
    alloc: Global,
    told: &mut String,
    function: &Function,
    info: &FunctionInfo,
) -> Result<(), AllocError> {
    let count = info
        .global_variable_count()
        .saturating_add(function.arguments.len());
    told.push_str(if info.may_kill { "kills " } else { "ends " })?;
    tell_uses(alloc, told, info.uses())?;
    told.push_str(" ")?;
    tell_pairs(alloc, told, info, count)?;
    told.push_str(" ")?;
    tell_set(alloc, told, info.sampling_set.as_slice())?;
    told.push_str(" ")?;
    tell_expressions(alloc, told, info.expressions())?;
    told.push_str("\n")
}

// Prints the error of an expression.
fn tell_expression_error(
    alloc: Global,
    told: &mut String,
    index: usize,
    error: &ExpressionError,
) -> Result<(), AllocError> {
    match error {
        ExpressionError::Typing(error) => {
            push(told, format!(in alloc; "untyped {index} {error:?}\n"))
        }
        ExpressionError::ExpectedGlobalOrArgument => {
            push(told, format!(in alloc; "wrong form {index}\n"))
        }
        _ => told.push_str("another fault\n"),
    }
}

// Prints the error of a function.
fn tell_error(alloc: Global, told: &mut String, error: &FunctionError) -> Result<(), AllocError> {
    match error {
        FunctionError::Expression { handle, source } => {
            tell_expression_error(alloc, told, handle.index(), source)
        }
        FunctionError::NonUniformControlFlow(asked, _, _) if asked.0 == 1 => {
            told.push_str("not uniform 1\n")
        }
        FunctionError::NonUniformControlFlow(asked, handle, _) => {
            push(
                told,
                format!(in alloc; "not uniform {} {}\n", asked.0, handle.index()),
            )
        }
        _ => told.push_str("another fault\n"),
    }
}

// Whether the handles of a function are in order, as its analysis requires.
fn is_in_order(function: &Function, module: &Module, before: usize) -> bool
    ensures handles { IsTrue result → HandlesInRange (module_view «module».now) (function_view function.now) }
    ensures precede { IsTrue result → OperandsPrecede (function_view function.now).expressions }
    ensures parents { IsTrue result → ParentsPrecede (module_view «module».now).filters }
{
    handles_in_range(function, module)
        && operands_precede(function, module)
        && callees_precede(function, module, before)
        && filter_parents_precede(function, module)
        && arities_match(function, module)
}

// Prints the analysis of a function, and returns its information.
fn reported_info(
    alloc: Global,
    told: &mut String,
    module: &Module,
    function: &Function,
    callees: &[FunctionInfo],
    flags: ValidationFlags,
) -> Result<Option<FunctionInfo>, AllocError> {
    if !is_in_order(function, module, callees.len()) {
        told.push_str("out of order\n")?;
        return Ok(None);
    }
    match process_function(alloc, module, function, callees, flags) {
        Ok(info) => completed(tell_info(alloc, told, function, &info), info).map(Some),
        Err(Refusal::Memory(error)) => Err(error),
        Err(Refusal::Fault(fault)) => {
            freeing(tell_error(alloc, told, fault.as_inner()), fault)?;
            Ok(None)
        }
    }
}

// Prints the analysis of the functions of a module, up to the first that fails, and returns whether none does.
fn tell_functions(
    alloc: Global,
    told: &mut String,
    module: &Module,
    flags: ValidationFlags,
    infos: &mut Vec<FunctionInfo>,
) -> Result<bool, AllocError> {
    for (_, function) in module.functions.iter() {
        match reported_info(alloc, told, module, function, infos, flags)? {
            Some(info) => infos.push(info)?,
            None => return Ok(false),
        }
    }
    Ok(true)
}

// Prints the analysis of the entry points of a module.
fn tell_entries(
    alloc: Global,
    told: &mut String,
    module: &Module,
    flags: ValidationFlags,
    infos: &[FunctionInfo],
) -> Result<(), AllocError> {
    for entry in module.entry_points.as_slice() {
        drop(reported_info(alloc, told, module, &entry.function, infos, flags)?);
    }
    Ok(())
}

// Prints the analysis of the functions of a module, and then of its entry points.
fn tell_all(
    alloc: Global,
    told: &mut String,
    module: &Module,
    flags: ValidationFlags,
    infos: &mut Vec<FunctionInfo>,
) -> Result<(), AllocError> {
    if tell_functions(alloc, told, module, flags, infos)? {
        tell_entries(alloc, told, module, flags, infos.as_slice())?;
    }
    Ok(())
}

/// The analysis of the functions of a module in order, up to the first that fails, and then of its entry points.
pub fn summaries_told(
    alloc: Global,
    module: &Module,
    flags: ValidationFlags,
) -> Result<String, AllocError> {
    let mut told = String::new(alloc);
    let mut infos: Vec<FunctionInfo> = Vec::new(alloc);
    let done = tell_all(alloc, &mut told, module, flags, &mut infos);
    completed(freeing(done, infos), told)
}

// The information on a function, or nothing if its handles are not in order or its analysis fails.
fn kept_of(
    alloc: Global,
    module: &Module,
    function: &Function,
    callees: &[FunctionInfo],
    flags: ValidationFlags,
) -> Result<Option<FunctionInfo>, AllocError> {
    if !is_in_order(function, module, callees.len()) {
        return Ok(None);
    }
    match process_function(alloc, module, function, callees, flags) {
        Ok(info) => Ok(Some(info)),
        Err(Refusal::Memory(error)) => Err(error),
        Err(Refusal::Fault(_)) => Ok(None),
    }
}

// Appends the information on each function to a list, up to one without. Returns whether there is none.
fn keep_all(
    alloc: Global,
    module: &Module,
    flags: ValidationFlags,
    infos: &mut Vec<FunctionInfo>,
) -> Result<bool, AllocError> {
    for (_, function) in module.functions.iter() {
        match kept_of(alloc, module, function, infos.as_slice(), flags)? {
            Some(info) => infos.push(info)?,
            None => return Ok(false),
        }
    }
    Ok(true)
}

/// Whether each function has information, as a word.
pub fn summarized(
    alloc: Global,
    module: &Module,
    flags: ValidationFlags,
) -> Result<&'static str, AllocError> {
    let mut infos: Vec<FunctionInfo> = Vec::with_capacity(alloc, module.functions.len())?;
    match freeing(keep_all(alloc, module, flags, &mut infos), infos) {
        Ok(true) => Ok("summarized"),
        Ok(false) => Ok("not summarized"),
        Err(error) => Err(error),
    }
}

/// Whether the handles of all functions are in order, as a word.
pub fn ordered(module: &Module) -> &'static str {
    for (handle, function) in module.functions.iter() {
        if !is_in_order(function, module, handle.index()) {
            return "not ordered";
        }
    }
    "ordered"
}
