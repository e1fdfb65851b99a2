// The types of expressions.
use ir_arena::arena::Arena;
use ir_arena::handle::Handle;
use ir_items::{Expression, Function, Module, key};
use ir_types::TypeInner;
use std::alloc::{AllocError, Global};
use test_support::call::{completed, freeing, push};
use typing_errors::ResolveRefusal;
use typing_forms::{TypeResolution, form_of};
use typing_resolve::ResolveContext;

type Expressions = Arena<Expression, key::Expression>;

// The type of an operand, or another one if the operand does not come before.
fn found_at<'a>(
    found: &'a [TypeResolution],
    handle: Handle<key::Expression>,
    missing: &'a TypeResolution,
) -> &'a TypeResolution {
    found.get(handle.index()).unwrap_or(missing)
}

// The type of an expression after these.
fn type_pointed(
    alloc: Global,
    context: &ResolveContext<'_>,
    found: &[TypeResolution],
    expression: &Expression,
) -> Option<Result<TypeResolution, ResolveRefusal>> {
    if !context.names_item(expression) {
        return None;
    }
    let missing = TypeResolution::Value(TypeInner::Sampler { comparison: false });
    let given = context.resolve(
        alloc,
        expression,
        |operand| found_at(found, operand, &missing),
    );
    Some(given)
}

// Prints the types of these expressions, one per line, up to the first without, and appends them to a list.
fn tell(
    alloc: Global,
    told: &mut String,
    context: &ResolveContext<'_>,
    expressions: &Expressions,
    found: &mut Vec<TypeResolution>,
) -> Result<(), AllocError> {
    for (_, expression) in expressions.iter() {
        match type_pointed(alloc, context, found.as_slice(), expression) {
            Some(Ok(given)) => {
                let line = format!(in alloc; "{:?}\n", form_of(context.types, &given));
                found.push(completed(push(told, line), given)?)?;
            }
            Some(Err(ResolveRefusal::Fault(error))) => {
                let line = format!(in alloc; "{error:?}\n");
                return push(told, freeing(line, error));
            }
            Some(Err(ResolveRefusal::Memory(error))) => return Err(error),
            None => return told.push_str("names what is not there\n"),
        }
    }
    Ok(())
}

// Prints the types of a function's expressions, after this word.
fn tell_function(
    alloc: Global,
    told: &mut String,
    word: &str,
    module: &Module,
    function: &Function,
) -> Result<(), AllocError> {
    told.push_str(word)?;
    let context = ResolveContext::with_locals(
        module,
        &function.local_variables,
        &function.arguments,
    );
    let mut found: Vec<TypeResolution> = Vec::with_capacity(alloc, function.expressions.len())?;
    freeing(
        tell(alloc, told, &context, &function.expressions, &mut found),
        found,
    )
}

// Prints the types of the global expressions.
fn tell_globals(alloc: Global, told: &mut String, module: &Module) -> Result<(), AllocError> {
    told.push_str("globals\n")?;
    let none = Arena::new(alloc);
    let context = ResolveContext::with_locals(module, &none, &[]);
    let mut found: Vec<TypeResolution> = Vec::new(alloc);
    let done = tell(
        alloc,
        told,
        &context,
        &module.global_expressions,
        &mut found,
    );
    freeing(freeing(done, found), none)
}

// Prints the types of all expressions of a module.
fn tell_all(alloc: Global, told: &mut String, module: &Module) -> Result<(), AllocError> {
    tell_globals(alloc, told, module)?;
    for (_, function) in module.functions.iter() {
        tell_function(alloc, told, "function\n", module, function)?;
    }
    for entry in module.entry_points.as_slice() {
        tell_function(alloc, told, "entry\n", module, &entry.function)?;
    }
    Ok(())
}

/// The types of the global expressions, and of those of each function and each entry point.
pub fn types_told(alloc: Global, module: &Module) -> Result<String, AllocError> {
    let mut told = String::new(alloc);
    completed(tell_all(alloc, &mut told, module), told)
}

// Whether these expressions have types, which are appended to a list.
fn are_typed(
    alloc: Global,
    context: &ResolveContext<'_>,
    expressions: &Expressions,
    found: &mut Vec<TypeResolution>,
) -> Result<bool, AllocError> {
    for (_, expression) in expressions.iter() {
        match type_pointed(alloc, context, found.as_slice(), expression) {
            Some(Ok(given)) => found.push(given)?,
            Some(Err(ResolveRefusal::Memory(error))) => return Err(error),
            Some(Err(ResolveRefusal::Fault(_))) | None => return Ok(false),
        }
    }
    Ok(true)
}

// Whether the expressions of a function have types.
fn is_typed(alloc: Global, module: &Module, function: &Function) -> Result<bool, AllocError> {
    let context = ResolveContext::with_locals(
        module,
        &function.local_variables,
        &function.arguments,
    );
    let mut found: Vec<TypeResolution> = Vec::with_capacity(alloc, function.expressions.len())?;
    freeing(
        are_typed(alloc, &context, &function.expressions, &mut found),
        found,
    )
}

/// Whether the expressions of each function have types, as a word.
pub fn typed(alloc: Global, module: &Module) -> Result<&'static str, AllocError> {
    for (_, function) in module.functions.iter() {
        if !is_typed(alloc, module, function)? {
            return Ok("not typed");
        }
    }
    Ok("typed")
}
