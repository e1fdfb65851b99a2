//! The result of a compare-exchange: a struct of the old value and of whether the exchange took place.

ghost use Rattle.std.specs.Prelude.{◌≡◌, ◌↔◌, IsTrue, Some, map};
ghost use Rattle.ir_types.specs.judged.Plain.{inner_view, member_view};
ghost use Rattle.spec_statements.specs.judged.ExpressionResults.{AreExchanged, AreExchangeMembers, IsExchangeOf};
ghost use Rattle.typing_forms.specs.judged.Resolutions.{inner_at, types_view};
ghost use Rattle.typing_forms.specs.declared.form.Form.{Form};

use crate::shapes::is_one_truth;
use ir_arena::handle::Handle;
use ir_sets::unique_arena::UniqueArena;
use ir_types::{IrType, StructMember, TypeInner, key};
use typing_forms::{Form, form_of_type, inner_of};

// Whether a member has a name.
fn is_named(member: &StructMember, name: &str) -> bool
    ensures { IsTrue result ↔ ((member_view member.now).name ≡ Some name.now) }
{
    match member.name {
        Some(ref own) => own.as_str() == name,
        None => false,
    }
}

// The type of the old value, if two members are `old_value` and `exchanged`.
#[tactic(auto, using(crate::proofs::OldValues::found, crate::proofs::OldValues::missing))]
fn exchanged_of(
    types: &UniqueArena<IrType, key::IrType>,
    old: &StructMember,
    exchanged: &StructMember,
) -> Option<Form>
    ensures { (of : Form) → (result ≡ Some of)
        ↔ AreExchanged (λ found. found ≡ of) (types_view types.now) (member_view old.now) (member_view exchanged.now) }
{
    if is_named(old, "old_value")
        && is_named(exchanged, "exchanged")
        && is_one_truth(form_of_type(types, exchanged.ty))
    {
        Some(form_of_type(types, old.ty))
    } else {
        None
    }
}

// The type of the old value, if these are the only members.
#[tactic(auto, using(crate::proofs::Members::two, crate::proofs::Members::other))]
fn exchanged_among(
    types: &UniqueArena<IrType, key::IrType>,
    members: &[StructMember],
) -> Option<Form>
    ensures { (of : Form) → (result ≡ Some of)
        ↔ AreExchangeMembers (λ found. found ≡ of) (types_view types.now) (map member_view members.now) }
{
    if members.len() != 2 {
        return None;
    }
    exchanged_of(types, &members[0], &members[1])
}

// The type of the old value, if a type is a struct of exactly these members.
fn exchanged_in(types: &UniqueArena<IrType, key::IrType>, inner: &TypeInner) -> Option<Form>
    ensures { (of : Form) → (result ≡ Some of)
        ↔ IsExchangeOf (λ found. found ≡ of) (types_view types.now) (Some (inner_view inner.now)) }
{
    match *inner {
        TypeInner::Struct { ref members, .. } => exchanged_among(types, members.as_slice()),
        TypeInner::Scalar(_)
        | TypeInner::Vector { .. }
        | TypeInner::Matrix { .. }
        | TypeInner::CooperativeMatrix { .. }
        | TypeInner::Atomic(_)
        | TypeInner::Pointer { .. }
        | TypeInner::ValuePointer { .. }
        | TypeInner::Array { .. }
        | TypeInner::Image { .. }
        | TypeInner::Sampler { .. }
        | TypeInner::AccelerationStructure { .. }
        | TypeInner::RayQuery { .. }
        | TypeInner::BindingArray { .. } => None,
    }
}

/// The type of the old value, if the type at a handle is the result of a compare-exchange: a struct of `old_value`
/// and of a bool `exchanged`.
pub fn exchanged_value(
    types: &UniqueArena<IrType, key::IrType>,
    ty: Handle<key::IrType>,
) -> Option<Form>
    ensures { (of : Form) → (result ≡ Some of)
        ↔ IsExchangeOf (λ found. found ≡ of) (types_view types.now) (inner_at (types_view types.now) ty) }
{
    match inner_of(types, ty) {
        Some(inner) => exchanged_in(types, inner),
        None => None,
    }
}
