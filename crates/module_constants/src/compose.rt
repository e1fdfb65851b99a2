//! Checks of `Compose` expressions.

ghost use Rattle.std.specs.Prelude.{◌≡◌, ◌<◌, ◌≤◌, ◌↔◌, ℕ, IsTrue, Some, length, map, slice_get, sum, MatchResult};
ghost use Rattle.module_constants.specs.Compositions.{in_32_bits, IsComposeFault};
ghost use Rattle.ir_types.specs.judged.Plain.{PlainMember, inner_view, member_view};
ghost use Rattle.typing_errors.specs.declared.compose.ComposeError.TheVariants as compose;
ghost use Rattle.module_constants.specs.Composed.{AllFit, IsMisfit, IsOtherCount, AreWhole, AreNotWhole, IsForm, IsScalars, IsMember, forms_of};
ghost use Rattle.spec_expressions.specs.judged.Compose.{scalars_in, ComponentFits, parts_given, ComposeOK};
ghost use Rattle.typing_forms.specs.judged.Forms.{form_of_type};
ghost use Rattle.typing_forms.specs.judged.Resolutions.{types_view};
ghost use Rattle.typing_errors.specs.Answers.{form_given};
ghost use Rattle.typing_forms.specs.judged.Parts.{components_of};

use crate::components::{Components, count_of, form_at, scalars_of};
use ir_arena::handle::Handle;
use ir_items::GlobalCtx;
use ir_kinds::Scalar;
use ir_sets::unique_arena::UniqueArena;
use ir_types::{IrType, StructMember, TypeInner, key};
use typing_errors::ComposeError;
use typing_forms::laws::form_equality;
use typing_forms::{Form, TypeInnerExt, TypeResolution, form_of_type, inner_of};

// Whether a value of this form may be the struct member at an index.
fn fits_member_at(
    types: &UniqueArena<IrType, key::IrType>,
    members: &[StructMember],
    place: usize,
    form: Form,
) -> bool
    requires { place < length members.now }
    ensures { IsTrue result
        ↔ ((m : PlainMember) → slice_get (map member_view members.now) place ≡ Some m → form ≡ form_of_type (types_view types.now) m.ty) }
{
    form_equality(form, form_of_type(types, members[place].ty))
}

// As above, but true for an index past the last member.
fn fits_member(
    types: &UniqueArena<IrType, key::IrType>,
    members: &[StructMember],
    place: usize,
    form: Form,
) -> bool
    ensures { IsTrue result
        ↔ ((m : PlainMember) → slice_get (map member_view members.now) place ≡ Some m → form ≡ form_of_type (types_view types.now) m.ty) }
{
    if place < members.len() {
        return fits_member_at(types, members, place, form);
    }
    true
}

// An integer, saturated to 32 bits.
fn in_32_bits(number: usize) -> u32
    ensures { result ≡ in_32_bits number }
{
    if number < 4294967295 {
        number as u32
    } else {
        4294967295
    }
}

// The error of the component at an index.
fn misfit(place: usize) -> ComposeError
    ensures { result ≡ compose.ComponentType (in_32_bits place) }
{
    ComposeError::ComponentType {
        index: in_32_bits(place),
    }
}

// The number of scalars, saturated to 32 bits, that the components add to a vector of a scalar type, if each may be a
// component of it.
fn scalars_of_all(scalar: Scalar, components: &Components<'_>) -> Result<u32, ComposeError>
    ensures { MatchResult result
        (λ given. AllFit (IsScalars scalar) (forms_of components.now) × (given ≡ in_32_bits (sum (map scalars_in (forms_of components.now)))))
        (IsMisfit (IsScalars scalar) (forms_of components.now)) }
{
    let mut given: u32 = 0;
    for place in 0..count_of(components) {
        match scalars_of(scalar, form_at(components, place)) {
            Some(more) => {
                given = given.saturating_add(more);
            }
            None => return Err(misfit(place)),
        }
    }
    Ok(given)
}

// Whether every component has one form.
fn check_each(wanted: &Form, components: &Components<'_>) -> Result<(), ComposeError>
    ensures { MatchResult result
        (λ _. AllFit (IsForm wanted.now) (forms_of components.now))
        (IsMisfit (IsForm wanted.now) (forms_of components.now)) }
{
    for place in 0..count_of(components) {
        if !form_equality(form_at(components, place), *wanted) {
            return Err(misfit(place));
        }
    }
    Ok(())
}

// Whether each component has the type of the member at its index.
fn check_each_member(
    types: &UniqueArena<IrType, key::IrType>,
    members: &[StructMember],
    components: &Components<'_>,
) -> Result<(), ComposeError>
    ensures { MatchResult result
        (λ _. AllFit (IsMember (types_view types.now) (map member_view members.now)) (forms_of components.now))
        (IsMisfit (IsMember (types_view types.now) (map member_view members.now)) (forms_of components.now)) }
{
    for place in 0..count_of(components) {
        if !fits_member(types, members, place, form_at(components, place)) {
            return Err(misfit(place));
        }
    }
    Ok(())
}

// Whether the number of components is the expected one.
fn check_many(given: usize, expected: usize) -> Result<(), ComposeError>
    ensures { MatchResult result (λ _. given ≡ expected) (IsOtherCount given expected) }
{
    if given == expected {
        return Ok(());
    }
    Err(ComposeError::ComponentCount {
        given: in_32_bits(given),
        expected: in_32_bits(expected),
    })
}

// Whether the number of scalars, saturated to 32 bits, is the expected one.
fn check_total(given: u32, expected: usize) -> Result<(), ComposeError>
    requires { expected ≤ 4 }
    ensures { (all : ℕ) → given ≡ in_32_bits all → MatchResult result (λ _. all ≡ expected) (IsOtherCount all expected) }
{
    if given as usize == expected {
        return Ok(());
    }
    Err(ComposeError::ComponentCount {
        given,
        expected: in_32_bits(expected),
    })
}

// Whether the components compose a vector of this size.
fn check_vector(
    scalar: Scalar,
    components: &Components<'_>,
    expected: usize,
) -> Result<(), ComposeError>
    requires { expected ≤ 4 }
    ensures { MatchResult result
        (λ _. AreWhole (IsScalars scalar) (forms_of components.now) (sum (map scalars_in (forms_of components.now))) expected)
        (AreNotWhole (IsScalars scalar) (forms_of components.now) (sum (map scalars_in (forms_of components.now))) expected) }
{
    let given = scalars_of_all(scalar, components)?;
    check_total(given, expected)
}

// Whether the components are this many values of one form.
fn check_alike(
    wanted: &Form,
    components: &Components<'_>,
    expected: usize,
) -> Result<(), ComposeError>
    ensures { MatchResult result
        (λ _. AreWhole (IsForm wanted.now) (forms_of components.now) (length (forms_of components.now)) expected)
        (AreNotWhole (IsForm wanted.now) (forms_of components.now) (length (forms_of components.now)) expected) }
{
    check_each(wanted, components)?;
    check_many(count_of(components), expected)
}

// Whether the components match the members of a struct.
fn check_struct(
    types: &UniqueArena<IrType, key::IrType>,
    members: &[StructMember],
    components: &Components<'_>,
    expected: usize,
) -> Result<(), ComposeError>
    ensures { MatchResult result
        (λ _. AreWhole (IsMember (types_view types.now) (map member_view members.now)) (forms_of components.now) (length (forms_of components.now)) expected)
        (AreNotWhole (IsMember (types_view types.now) (map member_view members.now)) (forms_of components.now) (length (forms_of components.now)) expected) }
{
    check_each_member(types, members, components)?;
    check_many(count_of(components), expected)
}

// Whether the components compose a value of a type with this number of parts.
fn check_parts(
    types: &UniqueArena<IrType, key::IrType>,
    inner: &TypeInner,
    components: &Components<'_>,
    expected: usize,
) -> Result<(), ComposeError>
    requires { components_of (inner_view inner.now) ≡ Some expected }
    ensures { MatchResult result
        (λ _. AreWhole (ComponentFits (types_view types.now) (inner_view inner.now)) (forms_of components.now) (parts_given (inner_view inner.now) (forms_of components.now)) expected)
        (AreNotWhole (ComponentFits (types_view types.now) (inner_view inner.now)) (forms_of components.now) (parts_given (inner_view inner.now) (forms_of components.now)) expected) }
{
    match *inner {
        TypeInner::Vector { scalar, .. } => check_vector(scalar, components, expected),
        TypeInner::Matrix { rows, scalar, .. } => {
            check_alike(&Form::Vector { size: rows, scalar }, components, expected)
        }
        TypeInner::Array { base, .. } => {
            check_alike(&form_of_type(types, base), components, expected)
        }
        TypeInner::Struct { ref members, .. } => {
            check_struct(types, members.as_slice(), components, expected)
        }
        TypeInner::Scalar(_)
        | TypeInner::CooperativeMatrix { .. }
        | TypeInner::Atomic(_)
        | TypeInner::Pointer { .. }
        | TypeInner::ValuePointer { .. }
        | TypeInner::Image { .. }
        | TypeInner::Sampler { .. }
        | TypeInner::AccelerationStructure { .. }
        | TypeInner::RayQuery { .. }
        | TypeInner::BindingArray { .. } => check_many(count_of(components), expected),
    }
}

/// Whether the components compose a value of the type at a handle.
///
/// # Errors
///
/// The type can't be composed, a component has the wrong type, or the number of components is wrong. An error is returned only
/// if its condition holds.
pub fn check_composition(
    types: &UniqueArena<IrType, key::IrType>,
    ty: Handle<key::IrType>,
    components: &Components<'_>,
) -> Result<(), ComposeError>
    ensures { MatchResult result
        (λ _. ComposeOK (types_view types.now) ty (forms_of components.now))
        (IsComposeFault (types_view types.now) ty (forms_of components.now)) }
{
    let Some(inner) = inner_of(types, ty) else {
        return Err(ComposeError::Typing(ty));
    };
    let Some(expected) = inner.components() else {
        return Err(ComposeError::Typing(ty));
    };
    check_parts(types, inner, components, expected)
}

/// Whether values of these types compose one of the type at a handle (naga's `validate_compose`).
///
/// # Errors
///
/// The type can't be composed, a component has the wrong type, or the number of components is wrong. An error is returned only
/// if its condition holds.
pub fn validate_compose(
    self_ty: Handle<key::IrType>,
    gctx: GlobalCtx<'_>,
    component_resolutions: &[TypeResolution],
) -> Result<(), ComposeError>
    ensures { let types = types_view gctx.entry.types.now in
        MatchResult result
        (λ _. ComposeOK types self_ty (map (form_given types) component_resolutions.now))
        (IsComposeFault types self_ty (map (form_given types) component_resolutions.now)) }
{
    let components = Components::Types {
        types: gctx.types,
        resolutions: component_resolutions,
    };
    check_composition(gctx.types, self_ty, &components)
}
