//! The components of a `Compose` expression, by the forms of their types.

ghost use Rattle.std.specs.Prelude.{◌≡◌, ◌<◌, Some, length, map, slice_get};
ghost use Rattle.module_constants.specs.Composed.{AreScalars, form_known, forms_of};
ghost use Rattle.typing_forms.specs.judged.Resolutions.{types_view};
ghost use Rattle.typing_errors.specs.Answers.{form_given};

use ir_arena::handle::Handle;
use ir_kinds::Scalar;
use ir_sets::unique_arena::UniqueArena;
use ir_types::{IrType, key};
use typing_forms::{Form, TypeResolution, form_of};

/// The components of a `Compose` expression, in order.
#[derive(Clone, Copy)]
pub enum Components<'a> {
    /// They are expressions of an arena.
    Expressions {
        /// The forms of the types of all expressions of the arena.
        forms: &'a [Form],
        /// The handles of the components.
        handles: &'a [Handle<key::Expression>],
    },
    /// The components have these types.
    Types {
        /// The module's types.
        types: &'a UniqueArena<IrType, key::IrType>,
        /// The types of the components.
        resolutions: &'a [TypeResolution],
    },
}

// The form of an expression's type, if the type is known.
fn form_known(forms: &[Form], expression: Handle<key::Expression>) -> Form
    ensures { result ≡ form_known forms.now expression }
{
    match forms.get(expression.index()) {
        Some(form) => *form,
        None => Form::Nothing,
    }
}

/// The number of components.
#[tactic(auto, using(crate::proofs::Forms::many_mapped))]
pub(crate) fn count_of(components: &Components<'_>) -> usize
    ensures { result ≡ length (forms_of components.now) }
{
    match *components {
        Components::Expressions { handles, .. } => handles.len(),
        Components::Types { resolutions, .. } => resolutions.len(),
    }
}

// The form of the type of the expression at a handle.
#[tactic(auto, using(crate::proofs::Forms::mapped_at))]
fn form_of_named(forms: &[Form], handles: &[Handle<key::Expression>], place: usize) -> Form
    requires { place < length handles.now }
    ensures { Some result ≡ slice_get (map (form_known forms.now) handles.now) place }
{
    form_known(forms, handles[place])
}

// The form of the type at a handle.
#[tactic(auto, using(crate::proofs::Forms::mapped_at))]
fn form_of_given(
    types: &UniqueArena<IrType, key::IrType>,
    resolutions: &[TypeResolution],
    place: usize,
) -> Form
    requires { place < length resolutions.now }
    ensures { Some result ≡ slice_get (map (form_given (types_view types.now)) resolutions.now) place }
{
    form_of(types, &resolutions[place])
}

/// The form of the type of one component.
#[tactic(auto, using(crate::proofs::Forms::below_mapped))]
pub(crate) fn form_at(components: &Components<'_>, place: usize) -> Form
    requires { place < length (forms_of components.now) }
    ensures { Some result ≡ slice_get (forms_of components.now) place }
{
    match *components {
        Components::Expressions { forms, handles } => form_of_named(forms, handles, place),
        Components::Types { types, resolutions } => form_of_given(types, resolutions, place),
    }
}

/// The number of scalars that a component of this form adds to a vector of a scalar type; `None` if it is not allowed there.
pub(crate) fn scalars_of(scalar: Scalar, form: Form) -> Option<u32>
    ensures { AreScalars scalar form result }
{
    match form {
        Form::Scalar(found) => { if found == scalar { Some(1) } else { None } }
        Form::Vector {
            size,
            scalar: found,
        } => {
            if found == scalar {
                Some(u32::from(size))
            } else {
                None
            }
        }
        Form::Matrix { .. }
        | Form::CooperativeMatrix { .. }
        | Form::Atomic(_)
        | Form::Pointer { .. }
        | Form::ValuePointer { .. }
        | Form::Array { .. }
        | Form::Struct(_)
        | Form::Image { .. }
        | Form::Sampler { .. }
        | Form::AccelerationStructure { .. }
        | Form::RayQuery { .. }
        | Form::BindingArray { .. }
        | Form::Nothing => None,
    }
}
