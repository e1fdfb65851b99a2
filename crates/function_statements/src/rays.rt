//! Acceleration structures and ray descriptors.

ghost use Rattle.std.specs.Prelude.{◌≡◌, ◌↔◌, IsTrue, Some};
ghost use Rattle.spec_statements.specs.judged.RayQueries.{structure_of, IsMadeAs, IsRayDescriptor};

use function_statement_checks::StatementContext;
use ir_arena::handle::Handle;
use ir_types::key;
use module_context::are_same;
use typing_forms::Form;

/// Whether an acceleration structure type has vertex return.
pub(crate) const fn structure_of(of: Form) -> Option<bool>
    ensures { result ≡ structure_of of }
{
    match of {
        Form::AccelerationStructure { vertex_return } => Some(vertex_return),
        Form::Scalar(_)
        | Form::Vector { .. }
        | Form::Matrix { .. }
        | Form::CooperativeMatrix { .. }
        | Form::Atomic(_)
        | Form::Pointer { .. }
        | Form::ValuePointer { .. }
        | Form::Array { .. }
        | Form::Struct(_)
        | Form::Image { .. }
        | Form::Sampler { .. }
        | Form::RayQuery { .. }
        | Form::BindingArray { .. }
        | Form::Nothing => None,
    }
}

// Whether a type is equivalent to this one, the module's ray descriptor type.
fn is_made_as<C: StatementContext>(context: &C, declared: Handle<key::IrType>, of: &Form) -> bool
    requires known { C.known context.now }
    requires declared { (C.seen context.now).m.special.ray_desc ≡ Some declared }
    ensures { IsTrue result ↔ IsMadeAs (C.seen context.now).m.types declared of.now }
{
    match *of {
        Form::Struct(handle) => context.is_descriptor(handle),
        Form::Nothing => false,
        Form::Scalar(_)
        | Form::Vector { .. }
        | Form::Matrix { .. }
        | Form::CooperativeMatrix { .. }
        | Form::Atomic(_)
        | Form::Pointer { .. }
        | Form::ValuePointer { .. }
        | Form::Array { .. }
        | Form::Image { .. }
        | Form::Sampler { .. }
        | Form::AccelerationStructure { .. }
        | Form::RayQuery { .. }
        | Form::BindingArray { .. } => are_same(*of, context.form_of(declared)),
    }
}

/// Whether a type is equivalent to that of a ray descriptor.
pub(crate) fn is_ray_descriptor<C: StatementContext>(context: &C, of: &Form) -> bool
    requires { C.known context.now }
    ensures { IsTrue result ↔ IsRayDescriptor (C.seen context.now) of.now }
{
    match context.ray_descriptor() {
        Some(declared) => is_made_as(context, declared, of),
        None => false,
    }
}
