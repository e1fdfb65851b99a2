//! Uniform loads of workgroup memory.

ghost use Rattle.std.specs.Prelude.{◌≡◌, ◌↔◌, IsTrue, MatchResult, Some, IsSomeAnd};
ghost use Rattle.function_atomic_checks.specs.UniformLoads.{loaded_at, IsUniformLoadFault};
ghost use Rattle.ir_types.specs.judged.ExpressionPlain.{expression_view};
ghost use Rattle.ir_kinds.specs.declared.spaces.AddressSpace.TheVariants.{WorkGroup};
ghost use Rattle.spec_expressions.specs.judged.Access.{pointer_to};
ghost use Rattle.spec_statements.specs.judged.Atomics.{changed_scalar};
ghost use Rattle.spec_statements.specs.judged.Stores.{pointer_space};
ghost use Rattle.spec_statements.specs.judged.UniformLoads.{loaded_type, LeadsTo, UniformLoadStatementOK};
ghost use Rattle.typing_forms.specs.judged.Forms.{form_of_type};

use crate::atomics::changed_scalar;
use function_statement_checks::{StatementContext, pointer_space};
use ir_arena::handle::Handle;
use ir_kinds::AddressSpace;
use ir_types::{Expression, TypeInner, key};
use module_context::are_same;
use typing_errors::FunctionError;
use typing_forms::Form;

// Whether a type is a pointer into workgroup memory.
const fn is_in_workgroup(pointer: &Form) -> bool
    ensures { IsTrue result ↔ (pointer_space pointer.now ≡ Some WorkGroup) }
{
    match pointer_space(*pointer) {
        Some(AddressSpace::WorkGroup) => true,
        Some(
            AddressSpace::Function
            | AddressSpace::Private
            | AddressSpace::Uniform
            | AddressSpace::Storage { .. }
            | AddressSpace::Handle
            | AddressSpace::Immediate
            | AddressSpace::TaskPayload
            | AddressSpace::RayPayload
            | AddressSpace::IncomingRayPayload,
        )
        | None => false,
    }
}

// The type that a `WorkGroupUniformLoadResult` declares.
fn loaded_type(expression: &Expression) -> Option<Handle<key::IrType>>
    ensures { result ≡ loaded_type (expression_view expression.now) }
{
    match *expression {
        Expression::WorkGroupUniformLoadResult { ty } => Some(ty),
        _ => None,
    }
}

// The same for the expression at a handle.
fn loaded_at<C: StatementContext>(
    context: &C,
    handle: Handle<key::Expression>,
) -> Option<Handle<key::IrType>>
    ensures { result ≡ loaded_at (C.seen context.now) handle }
{
    match context.expression_at(handle) {
        Some(expression) => loaded_type(expression),
        None => None,
    }
}

// A pointer into workgroup memory to a type of the module.
fn workgroup_pointer<C: StatementContext>(context: &C, ty: Handle<key::IrType>) -> Form
    ensures { result ≡ pointer_to (C.seen context.now).m.types ty WorkGroup }
{
    match context.inner_of(ty) {
        Some(TypeInner::Scalar(scalar)) => Form::ValuePointer {
            size: None,
            scalar: *scalar,
            space: AddressSpace::WorkGroup,
        },
        Some(TypeInner::Vector { size, scalar }) => Form::ValuePointer {
            size: Some(*size),
            scalar: *scalar,
            space: AddressSpace::WorkGroup,
        },
        _ => Form::Pointer {
            base: ty,
            space: AddressSpace::WorkGroup,
        },
    }
}

// Whether a pointer points to an atomic of a type.
fn leads_to_atomic<C: StatementContext>(
    context: &C,
    pointer: &Form,
    ty: Handle<key::IrType>,
) -> bool
    ensures { IsTrue result
        ↔ IsSomeAnd (changed_scalar (C.seen context.now).m.types pointer.now) (λ s. form_of_type (C.seen context.now).m.types ty ≡ Form.Scalar s) }
{
    match changed_scalar(context, pointer) {
        Some(scalar) => are_same(context.form_of(ty), Form::Scalar(scalar)),
        None => false,
    }
}

// Whether a pointer points to a type, or to an atomic of it.
fn leads_to<C: StatementContext>(context: &C, pointer: &Form, ty: Handle<key::IrType>) -> bool
    ensures { IsTrue result ↔ LeadsTo (C.seen context.now).m.types pointer.now ty }
{
    are_same(*pointer, workgroup_pointer(context, ty)) || leads_to_atomic(context, pointer, ty)
}

/// Whether a uniform load is valid: from workgroup memory, by a pointer to the result type or to an atomic of it.
///
/// # Errors
///
/// [`FunctionError::WorkgroupUniformLoadInvalidPointer`] for a pointer into another address space, or to another type, or for
/// no pointer; [`FunctionError::WorkgroupUniformLoadExpressionMismatch`] if the result is not a `WorkGroupUniformLoadResult`.
pub fn check_uniform_load<C: StatementContext>(
    context: &C,
    pointer: Handle<key::Expression>,
    answer: Handle<key::Expression>,
) -> Result<(), FunctionError>
    ensures { MatchResult result
        (λ _. UniformLoadStatementOK (C.seen context.now) pointer answer)
        (IsUniformLoadFault (C.seen context.now) pointer answer) }
{
    let place = context.form_at(pointer);
    if !is_in_workgroup(&place) {
        return Err(FunctionError::WorkgroupUniformLoadInvalidPointer(pointer));
    }
    match loaded_at(context, answer) {
        None => Err(FunctionError::WorkgroupUniformLoadExpressionMismatch(answer)),
        Some(ty) => {
            if leads_to(context, &place, ty) {
                Ok(())
            } else {
                Err(FunctionError::WorkgroupUniformLoadInvalidPointer(pointer))
            }
        }
    }
}
