//! Constructible types.

ghost use Rattle.std.specs.Prelude.{◌↔◌, ◌≡◌, IsTrue, IfOk};
ghost use Rattle.std.specs.List.{list_all};
ghost use Rattle.ir_types.specs.judged.Plain.{inner_view};
ghost use Rattle.typing_forms.specs.judged.Order.{TypesGoBack};
ghost use Rattle.typing_forms.specs.judged.Resolutions.{types_view};
ghost use Rattle.typing_forms.specs.found.Constructible.{IsConstructible, AreFound, known_at, composed_of};

use crate::order::type_at;
use ir_sets::unique_arena::UniqueArena;
use ir_types::ir_arena::handle::Handle;
use ir_types::{ArraySize, IrType, StructMember, TypeInner, key};
use std::alloc::{AllocError, Global};

// The entry of the type at a handle: false if it was not visited.
fn known_at(known: &[bool], handle: Handle<key::IrType>) -> bool
    ensures { result ≡ known_at known.now handle }
{
    match known.get(handle.index()) {
        Some(known) => *known,
        None => false,
    }
}

// Whether each member's type is constructible, by the entries.
fn all_known(members: &[StructMember], known: &[bool]) -> bool
    ensures { result ≡ list_all (λ m. known_at known.now m.ty) members.now }
{
    members.iter().all(|member| known_at(known, member.ty))
}

// Whether a type is constructible, given the entries of its parts.
#[tactic(auto, using(crate::proofs::Constructed::array_composed))]
fn composed_of(inner: &TypeInner, known: &[bool]) -> bool
    ensures { result ≡ composed_of known.now (inner_view inner.now) }
{
    match *inner {
        TypeInner::Scalar(_)
        | TypeInner::Vector { .. }
        | TypeInner::Matrix { .. }
        | TypeInner::CooperativeMatrix { .. }
        | TypeInner::RayQuery { .. } => true,
        TypeInner::Array {
            base,
            size: ArraySize::Constant(_),
            ..
        } => known_at(known, base),
        TypeInner::Struct { ref members, .. } => all_known(members.as_slice(), known),
        _ => false,
    }
}

// Which types of the arena are constructible, each visited once.
fn constructible_types(
    alloc: Global,
    types: &UniqueArena<IrType, key::IrType>,
) -> Result<Vec<bool>, AllocError>
    requires { TypesGoBack (types_view types.now) }
    ensures { IfOk result (λ known. AreFound (types_view types.now) known.items) }
{
    let mut known = Vec::new(alloc);
    for place in 0..types.len() {
        known.push(composed_of(type_at(types, place), known.as_slice()))?;
    }
    Ok(known)
}

// Whether the type is constructible. The error is out of memory.
pub(crate) fn is_constructible(
    alloc: Global,
    types: &UniqueArena<IrType, key::IrType>,
    inner: &TypeInner,
) -> Result<bool, AllocError>
    requires { TypesGoBack (types_view types.now) }
    ensures { IfOk result (λ b. IsTrue b ↔ IsConstructible (types_view types.now) (inner_view inner.now)) }
{
    let known = constructible_types(alloc, types)?;
    Ok(composed_of(inner, known.as_slice()))
}
