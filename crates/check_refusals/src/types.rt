// The types of the expressions around an error.

use check_reasons::OperandType;
use check_sentences::TypeText;
use check_sentences::function_errors::ValidationError;
use ir_arena::arena::Arena;
use ir_arena::handle::Handle;
use ir_items::{Function, Module};
use ir_types::{Expression, TypeInner, key};
use std::alloc::{AllocError, Global};
use typing_errors::ResolveRefusal;
use typing_forms::{Form, TypeResolution, form_of};
use typing_resolve::ResolveContext;

// The fallback for an operand without a type.
fn missing_type() -> TypeResolution {
    TypeResolution::Value(TypeInner::Sampler { comparison: false })
}

// The type of an operand, or another one if it has none.
fn found_at<'a>(
    types: &'a [TypeResolution],
    operand: Handle<key::Expression>,
    missing: &'a TypeResolution,
) -> &'a TypeResolution {
    match types.get(operand.index()) {
        Some(found) => found,
        None => missing,
    }
}

// The type of the next expression, given those of earlier ones, or nothing if it has none.
fn next_type(
    alloc: Global,
    context: &ResolveContext<'_>,
    types: &[TypeResolution],
    missing: &TypeResolution,
    expression: &Expression,
) -> Result<Option<TypeResolution>, AllocError> {
    if !context.names_item(expression) {
        return Ok(None);
    }
    match context.resolve(
        alloc,
        expression,
        |operand| found_at(types, operand, missing),
    ) {
        Ok(found) => Ok(Some(found)),
        Err(ResolveRefusal::Memory(error)) => Err(error),
        Err(ResolveRefusal::Fault(_)) => Ok(None),
    }
}

// The types of the expressions of a list, up to the first without one.
fn types_of(
    alloc: Global,
    context: &ResolveContext<'_>,
    expressions: &Arena<Expression, key::Expression>,
) -> Result<Vec<TypeResolution>, AllocError> {
    let missing = missing_type();
    let mut types = Vec::new(alloc);
    for (_, expression) in expressions.iter() {
        match next_type(alloc, context, &types, &missing, expression)? {
            Some(found) => types.push(found)?,
            None => break,
        }
    }
    Ok(types)
}

/// The invalid function, if the error is in one.
pub(crate) fn refused_function<'a>(
    module: &'a Module,
    error: &ValidationError,
) -> Option<&'a Function> {
    match error {
        ValidationError::Function(error) => module.functions.try_get(error.function).ok(),
        ValidationError::EntryPoint(error) => match module.entry_points.get(error.index) {
            Some(entry) => Some(&entry.function),
            None => None,
        },
        ValidationError::Module(_) | ValidationError::GlobalVariable(_) => None,
    }
}

/// The types of the expressions of the invalid function, or of the global expressions, up to the first without one. The
/// error is out of memory.
pub(crate) fn types_in(
    alloc: Global,
    module: &Module,
    function: Option<&Function>,
) -> Result<Vec<TypeResolution>, AllocError> {
    match function {
        Some(function) => {
            let context = ResolveContext::with_locals(
                module,
                &function.local_variables,
                &function.arguments,
            );
            types_of(alloc, &context, &function.expressions)
        }
        None => global_types(alloc, module),
    }
}

// The types of the global expressions.
fn global_types(alloc: Global, module: &Module) -> Result<Vec<TypeResolution>, AllocError> {
    let locals = Arena::new(alloc);
    let context = ResolveContext::with_locals(module, &locals, &[]);
    types_of(alloc, &context, &module.global_expressions)
}

/// The forms of types. The error is out of memory.
pub(crate) fn forms_of(
    alloc: Global,
    module: &Module,
    types: &[TypeResolution],
) -> Result<Vec<Form>, AllocError> {
    let mut forms = Vec::new(alloc);
    for found in types {
        forms.push(form_of(&module.types, found))?;
    }
    Ok(forms)
}

// The index of a type of the module, or of its pointer base.
fn index_of(found: &TypeResolution) -> Option<usize> {
    match found {
        TypeResolution::Handle(handle) => Some(handle.index()),
        TypeResolution::Value(TypeInner::Pointer { base, .. }) => Some(base.index()),
        TypeResolution::Value(_) => None,
    }
}

// A type as text.
fn operand_type(
    alloc: Global,
    module: &Module,
    found: &TypeResolution,
) -> Result<OperandType, AllocError> {
    let form = form_of(&module.types, found);
    let text = TypeText {
        types: &module.types,
        form: &form,
    };
    Ok(OperandType {
        text: format!(in alloc; "{text}")?,
        index: index_of(found),
    })
}

/// Types as text. The error is out of memory.
pub(crate) fn operand_types(
    alloc: Global,
    module: &Module,
    types: &[TypeResolution],
) -> Result<Vec<OperandType>, AllocError> {
    let mut operands = Vec::new(alloc);
    for found in types {
        operands.push(operand_type(alloc, module, found)?)?;
    }
    Ok(operands)
}
