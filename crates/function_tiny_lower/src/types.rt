//! The types of a function's expressions.

ghost use Rattle.std.specs.Prelude.{◌≡◌, Some, IfErr, IfOk, map};
ghost use Rattle.function_interface.specs.Analysis.{IsRefusedFor};
ghost use Rattle.ir_items.specs.found.View.{function_view, module_view};
ghost use Rattle.function_tiny_lower.specs.Readings.{IsTypeFault};
ghost use Rattle.function_tiny_lower.specs.Typing.{IsUntyped, types_of};
ghost use Rattle.function_tiny_lower.specs.Values.{resolution_of};

use crate::expressions::expression_type;
use crate::value_type::{ValueType, resolution_of};
use ir_arena::handle::Handle;
use ir_items::{Function, Module};
use ir_types::key;
use ir_types::refusal::Refusal;
use ir_types::with_span::WithSpan;
use std::alloc::{AllocError, Global};
use typing_errors::{ExpressionError, FunctionError};
use typing_forms::TypeResolution;

// The refusal of an expression without a type.
fn refused(
    alloc: Global,
    module: &Module,
    function: &Function,
    handle: Handle<key::Expression>,
) -> Refusal<FunctionError>
    requires { IsUntyped (module_view «module».now) (function_view function.now) handle }
    ensures { IsRefusedFor (IsTypeFault (module_view «module».now) (function_view function.now)) result }
{
    let source = ExpressionError::Other;
    Refusal::Fault(WithSpan::new(alloc, FunctionError::Expression { handle, source }))
}

/// The type of each expression.
///
/// # Errors
///
/// The first expression without a type; or out of memory.
pub(crate) fn types_of(
    alloc: Global,
    module: &Module,
    function: &Function,
) -> Result<Vec<ValueType>, Refusal<FunctionError>>
    ensures types { IfOk result (λ types. map Some types.items ≡ types_of (module_view «module».now) (function_view function.now)) }
    ensures fault { IfErr result (IsRefusedFor (IsTypeFault (module_view «module».now) (function_view function.now))) }
{
    let count = function.expressions.len();
    let mut types = Vec::with_capacity(alloc, count)?;
    for index in 0..count {
        let handle = Handle::at(index);
        let expression = &function.expressions[handle];
        match expression_type(module, function, types.as_slice(), expression) {
            Some(ty) => types.push(ty)?,
            None => return Err(refused(alloc, module, function, handle)),
        }
    }
    Ok(types)
}

/// The information on these types. The error is out of memory.
pub(crate) fn resolutions_of(
    alloc: Global,
    types: &[ValueType],
) -> Result<Vec<TypeResolution>, AllocError>
    ensures { IfOk result (λ told. told.items ≡ map resolution_of types.now) }
{
    let mut told = Vec::with_capacity(alloc, types.len())?;
    for ty in types {
        told.push(resolution_of(*ty))?;
    }
    Ok(told)
}
