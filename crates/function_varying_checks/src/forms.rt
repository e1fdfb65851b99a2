//! The parts of types.

ghost use Rattle.std.specs.Prelude.{◌≡◌, ◌<◌, ◌↔◌, IsTrue, length};
ghost use Rattle.typing_layout.specs.judged.Flags.{HasFlag, IoShareable};
ghost use Rattle.typing_layout.specs.judged.View.{type_tree};
ghost use Rattle.spec_interface.specs.judged.BuiltIns.{array_of_form};
ghost use Rattle.spec_interface.specs.judged.Locations.{kind_of, three};
ghost use Rattle.spec_interface.specs.found.Locations.{of_three};
ghost use Rattle.function_varying_checks.specs.View.{IsReported, context_view};

use crate::context::VaryingContext;
use bitflags::Flags;
use ir_arena::handle::Handle;
use ir_kinds::ScalarKind;
use ir_types::{ArraySize, key};
use typing_forms::Form;
use typing_layout::TypeFlags;

/// The elements of an array, and their number; `None` for other types.
pub(crate) fn array_of(form: &Form) -> Option<(Handle<key::IrType>, ArraySize)>
    ensures { result ≡ array_of_form form.now }
{
    match form {
        Form::Array { base, size, .. } => Some((*base, *size)),
        Form::Scalar(_)
        | Form::Vector { .. }
        | Form::Matrix { .. }
        | Form::CooperativeMatrix { .. }
        | Form::Atomic(_)
        | Form::Pointer { .. }
        | Form::ValuePointer { .. }
        | Form::Struct(_)
        | Form::Image { .. }
        | Form::Sampler { .. }
        | Form::AccelerationStructure { .. }
        | Form::RayQuery { .. }
        | Form::BindingArray { .. }
        | Form::Nothing => None,
    }
}

// The inner type of the elements of an array of three.
fn three(base: Handle<key::IrType>, size: ArraySize) -> Option<Handle<key::IrType>>
    ensures { result ≡ three base size }
{
    match size {
        ArraySize::Constant(count) => { if count == 3 { Some(base) } else { None } }
        ArraySize::Pending(_) | ArraySize::Dynamic => None,
    }
}

/// The elements of an array of three; `None` for other types.
pub(crate) fn of_three(form: &Form) -> Option<Handle<key::IrType>>
    ensures { result ≡ of_three form.now }
{
    match array_of(form) {
        Some((base, size)) => three(base, size),
        None => None,
    }
}

/// The scalar of a scalar or a vector; `None` for other types.
pub(crate) fn kind_of(form: &Form) -> Option<ScalarKind>
    ensures { result ≡ kind_of form.now }
{
    match form {
        Form::Scalar(scalar) => Some(scalar.kind),
        Form::Vector { scalar, .. } => Some(scalar.kind),
        Form::Matrix { .. }
        | Form::CooperativeMatrix { .. }
        | Form::Atomic(_)
        | Form::Pointer { .. }
        | Form::ValuePointer { .. }
        | Form::Array { .. }
        | Form::Struct(_)
        | Form::Image { .. }
        | Form::Sampler { .. }
        | Form::AccelerationStructure { .. }
        | Form::RayQuery { .. }
        | Form::BindingArray { .. }
        | Form::Nothing => None,
    }
}

/// Whether values of a type can be passed between stages. Those of a missing type can't.
pub(crate) fn is_shared(context: &VaryingContext<'_>, ty: Handle<key::IrType>) -> bool
    requires { IsReported context.now }
    ensures { IsTrue result ↔ HasFlag IoShareable (type_tree (context_view context.now).types ty) }
{
    match context.infos.get(ty.index()) {
        Some(info) => info.flags.contains(TypeFlags::IO_SHAREABLE),
        None => false,
    }
}
