//! Whether types refer only to earlier types.

ghost use Rattle.std.specs.Prelude.{◌↔◌, ◌<◌, ◌≡◌, IsTrue, All, Some, length};
ghost use Rattle.ir_types.specs.judged.Plain.{inner_view};
ghost use Rattle.typing_forms.specs.judged.Order.{named_types, TypesGoBack};
ghost use Rattle.typing_forms.specs.judged.Resolutions.{types_view, inner_at};

use ir_sets::unique_arena::UniqueArena;
use ir_types::ir_arena::handle::Handle;
use ir_types::{IrType, StructMember, TypeInner, key};

// Whether the type of each member has an index below `bound`.
fn members_below(members: &[StructMember], bound: usize) -> bool
    ensures { IsTrue result ↔ All (λ m. m.ty < bound) members.now }
{
    members.iter().all(|member| member.ty.index() < bound)
}

// Whether each type that a type refers to has an index below `bound`.
fn names_below(inner: &TypeInner, bound: usize) -> bool
    ensures { IsTrue result ↔ All (λ named. named < bound) (named_types (inner_view inner.now)) }
{
    match *inner {
        TypeInner::Pointer { base, .. }
        | TypeInner::Array { base, .. }
        | TypeInner::BindingArray { base, .. } => base.index() < bound,
        TypeInner::Struct { ref members, .. } => members_below(members.as_slice(), bound),
        TypeInner::Scalar(_)
        | TypeInner::Vector { .. }
        | TypeInner::Matrix { .. }
        | TypeInner::CooperativeMatrix { .. }
        | TypeInner::Atomic(_)
        | TypeInner::ValuePointer { .. }
        | TypeInner::Image { .. }
        | TypeInner::Sampler { .. }
        | TypeInner::AccelerationStructure { .. }
        | TypeInner::RayQuery { .. } => true,
    }
}

// The inner type at an index.
#[tactic(auto, using(crate::proofs::Orders::type_found))]
pub(crate) fn type_at(types: &UniqueArena<IrType, key::IrType>, place: usize) -> &TypeInner
    requires within { place < length types.now }
    requires in_range { place < 4294967295 }
    ensures { Some (inner_view result.now) ≡ inner_at (types_view types.now) place }
{
    &types[Handle::at(place)].inner
}

/// Whether each type refers only to earlier types, as handle validation requires. Functions that follow the types of elements
/// or members require it.
pub fn types_go_back(types: &UniqueArena<IrType, key::IrType>) -> bool
    ensures { IsTrue result ↔ TypesGoBack (types_view types.now) }
{
    for place in 0..types.len() {
        if !names_below(type_at(types, place), place) {
            return false;
        }
    }
    true
}
