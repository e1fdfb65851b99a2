//! Pointers: their origins, and their targets.

ghost use Rattle.std.specs.Prelude.{◌≡◌, ◌↔◌, IsTrue, Some};
ghost use Rattle.ir_types.specs.judged.ExpressionPlain.{expression_view};
ghost use Rattle.ir_types.specs.judged.Plain.{inner_view};
ghost use Rattle.ir_items.specs.judged.Bases.{base_of};
ghost use Rattle.spec_expressions.specs.judged.Loads.{loaded, loaded_value};
ghost use Rattle.spec_statements.specs.judged.Stores.{base_at, IsVariableOf, IsVariableAt, pointer_space, IsWritable, FitsAt};
ghost use Rattle.typing_forms.specs.judged.Resolutions.{inner_at};

use crate::context::StatementContext;
use bitflags::Flags;
use ir_arena::handle::Handle;
use ir_flags::StorageAccess;
use ir_kinds::{AddressSpace, Scalar, VectorSize};
use ir_types::{Expression, TypeInner, key};
use module_context::are_same;
use typing_forms::Form;

// ---- the origin of a pointer

// The base of an access, if the expression is one.
pub(crate) fn base_of(expression: &Expression) -> Option<Handle<key::Expression>>
    ensures { result ≡ base_of (expression_view expression.now) }
{
    match *expression {
        Expression::Access { base, .. } => Some(base),
        Expression::AccessIndex { base, .. } => Some(base),
        _ => None,
    }
}

/// The base of the access at a handle, if it is one.
pub fn base_at<C: StatementContext>(
    context: &C,
    handle: Handle<key::Expression>,
) -> Option<Handle<key::Expression>>
    ensures { result ≡ base_at (C.seen context.now).f.expressions handle }
{
    match context.expression_at(handle) {
        Some(expression) => base_of(expression),
        None => None,
    }
}

// Whether an expression is a variable or an argument.
fn is_variable(expression: &Expression) -> bool
    ensures { IsTrue result ↔ IsVariableOf (expression_view expression.now) }
{
    match *expression {
        Expression::FunctionArgument(_)
        | Expression::GlobalVariable(_)
        | Expression::LocalVariable(_) => true,
        Expression::Literal(_)
        | Expression::Constant(_)
        | Expression::Override(_)
        | Expression::ZeroValue(_)
        | Expression::Compose { .. }
        | Expression::Access { .. }
        | Expression::AccessIndex { .. }
        | Expression::Splat { .. }
        | Expression::Swizzle { .. }
        | Expression::Load { .. }
        | Expression::ImageSample { .. }
        | Expression::ImageLoad { .. }
        | Expression::ImageQuery { .. }
        | Expression::Unary { .. }
        | Expression::Binary { .. }
        | Expression::Select { .. }
        | Expression::Derivative { .. }
        | Expression::Relational { .. }
        | Expression::Math { .. }
        | Expression::As { .. }
        | Expression::CallResult(_)
        | Expression::AtomicResult { .. }
        | Expression::WorkGroupUniformLoadResult { .. }
        | Expression::ArrayLength(_)
        | Expression::RayQueryVertexPositions { .. }
        | Expression::RayQueryProceedResult
        | Expression::RayQueryGetIntersection { .. }
        | Expression::SubgroupBallotResult
        | Expression::SubgroupOperationResult { .. }
        | Expression::CooperativeLoad { .. }
        | Expression::CooperativeMultiplyAdd { .. } => false,
    }
}

/// Whether the expression at a handle is a variable or an argument.
pub(crate) fn is_variable_at<C: StatementContext>(
    context: &C,
    handle: Handle<key::Expression>,
) -> bool
    ensures { IsTrue result ↔ IsVariableAt (C.seen context.now).f.expressions handle }
{
    match context.expression_at(handle) {
        Some(expression) => is_variable(expression),
        None => false,
    }
}

// ---- its target

/// The address space of a pointer.
pub const fn pointer_space(pointer: Form) -> Option<AddressSpace>
    ensures { result ≡ pointer_space pointer }
{
    match pointer {
        Form::Pointer { space, .. } => Some(space),
        Form::ValuePointer { space, .. } => Some(space),
        Form::Scalar(_)
        | Form::Vector { .. }
        | Form::Matrix { .. }
        | Form::CooperativeMatrix { .. }
        | Form::Atomic(_)
        | Form::Array { .. }
        | Form::Struct(_)
        | Form::Image { .. }
        | Form::Sampler { .. }
        | Form::AccelerationStructure { .. }
        | Form::RayQuery { .. }
        | Form::BindingArray { .. }
        | Form::Nothing => None,
    }
}

/// Whether it is a pointer to writable memory.
pub(crate) fn is_writable(pointer: Form) -> bool
    ensures { IsTrue result ↔ IsWritable pointer }
{
    match pointer_space(pointer) {
        Some(space) => space.access().contains(StorageAccess::STORE),
        None => false,
    }
}

// The loaded value of a value pointer.
const fn loaded_value(size: Option<VectorSize>, scalar: Scalar) -> Form
    ensures { result ≡ loaded_value size scalar }
{
    match size {
        None => Form::Scalar(scalar),
        Some(size) => Form::Vector { size, scalar },
    }
}

// The loaded value of a pointer's target: the scalar of an atomic, else the target.
fn loaded<C: StatementContext>(context: &C, base: Handle<key::IrType>) -> Form
    ensures { result ≡ loaded (C.seen context.now).m.types base (inner_at (C.seen context.now).m.types base) }
{
    match context.inner_of(base) {
        Some(TypeInner::Atomic(scalar)) => Form::Scalar(*scalar),
        _ => context.form_of(base),
    }
}

/// Whether a value has the type that would be loaded.
pub(crate) fn fits_at<C: StatementContext>(context: &C, pointer: Form, value: Form) -> bool
    ensures { IsTrue result ↔ FitsAt (C.seen context.now).m.types pointer value }
{
    match pointer {
        Form::Pointer { base, .. } => are_same(value, loaded(context, base)),
        Form::ValuePointer { size, scalar, .. } => are_same(value, loaded_value(size, scalar)),
        Form::Scalar(_)
        | Form::Vector { .. }
        | Form::Matrix { .. }
        | Form::CooperativeMatrix { .. }
        | Form::Atomic(_)
        | Form::Array { .. }
        | Form::Struct(_)
        | Form::Image { .. }
        | Form::Sampler { .. }
        | Form::AccelerationStructure { .. }
        | Form::RayQuery { .. }
        | Form::BindingArray { .. }
        | Form::Nothing => false,
    }
}
