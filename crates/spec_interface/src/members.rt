//! Members of structs by their built-in values.

ghost use Rattle.std.specs.Prelude.{◌≡◌, ◌∷◌, ◌↔◌, [], ℕ, IsSome, IsTrue, MatchOption, Some, map};
ghost use Rattle.ir_items.specs.found.View.{module_view};
ghost use Rattle.ir_kinds.specs.declared.stages.MeshOutputTopology.{MeshOutputTopology};
ghost use Rattle.ir_types.specs.judged.Plain.{member_view};
ghost use Rattle.spec_interface.specs.judged.Members.{is_part, members_at, topologies_at, topology_of, types_bound};
ghost use Rattle.spec_interface.specs.found.Members.{member_topologies, type_bound};
ghost use Rattle.spec_interface.specs.judged.Meshes.{AreParts};
ghost use Rattle.spec_interface.specs.declared.parts.MeshParts.{MeshParts};

use crate::found::{Found, next};
use crate::lookups::members_at;
use crate::{MeshPart, MeshParts};
use ir_arena::handle::Handle;
use ir_items::Module;
use ir_kinds::{Binding, BuiltIn, MeshOutputTopology};
use ir_types::{StructMember, key};

// Whether a member is bound to a mesh output part.
fn is_part(part: MeshPart, binding: &Option<Binding>) -> bool
    ensures { result ≡ is_part part binding.now }
{
    match part {
        MeshPart::VertexCount => matches!(binding, Some(Binding::BuiltIn(BuiltIn::VertexCount))),
        MeshPart::Vertices => matches!(binding, Some(Binding::BuiltIn(BuiltIn::Vertices))),
        MeshPart::PrimitiveCount => {
            matches!(binding, Some(Binding::BuiltIn(BuiltIn::PrimitiveCount)))
        }
        MeshPart::Primitives => matches!(binding, Some(Binding::BuiltIn(BuiltIn::Primitives))),
    }
}

// The type of a member that is bound to a part; `None` for any other.
fn type_bound(part: MeshPart, member: &StructMember) -> Option<Handle<key::IrType>>
    ensures { result ≡ type_bound part (member_view member.now) }
{
    if is_part(part, &member.binding) {
        Some(member.ty)
    } else {
        None
    }
}

// The type of the only member that is bound to a part; `None` if there is no such member, or several.
fn only_type(part: MeshPart, members: &[StructMember]) -> Option<Handle<key::IrType>>
    ensures { MatchOption result
        ((t : ℕ) → types_bound part (map member_view members.now) ≡ t ∷ [] → ⊥)
        (λ t. types_bound part (map member_view members.now) ≡ t ∷ []) }
{
    let mut found = Found::Nothing;
    for member in members {
        found = next(found, type_bound(part, member));
    }
    match found {
        Found::One(ty) => Some(ty),
        Found::Nothing | Found::More => None,
    }
}

/// The types of the four parts among members; `None` if one is not bound exactly once.
pub fn parts_of(members: &[StructMember]) -> Option<MeshParts>
    ensures { MatchOption result
        ((t : MeshParts) → AreParts (map member_view members.now) t → ⊥)
        (AreParts (map member_view members.now)) }
{
    let vertex_count = match only_type(MeshPart::VertexCount, members) {
        Some(ty) => ty,
        None => return None,
    };
    let vertices = match only_type(MeshPart::Vertices, members) {
        Some(ty) => ty,
        None => return None,
    };
    let primitive_count = match only_type(MeshPart::PrimitiveCount, members) {
        Some(ty) => ty,
        None => return None,
    };
    let primitives = match only_type(MeshPart::Primitives, members) {
        Some(ty) => ty,
        None => return None,
    };
    Some(MeshParts {
        vertex_count,
        vertices,
        primitive_count,
        primitives,
    })
}

// The topology of an indices built-in value, if it is one.
fn topology_of(binding: &Option<Binding>) -> Option<MeshOutputTopology>
    ensures { result ≡ topology_of binding.now }
{
    match binding {
        Some(Binding::BuiltIn(BuiltIn::PointIndex)) => Some(MeshOutputTopology::Points),
        Some(Binding::BuiltIn(BuiltIn::LineIndices)) => Some(MeshOutputTopology::Lines),
        Some(Binding::BuiltIn(BuiltIn::TriangleIndices)) => Some(MeshOutputTopology::Triangles),
        _ => None,
    }
}

// The topology of the only indices member; `None` if there is no such member, or several.
fn only_topology(members: &[StructMember]) -> Option<MeshOutputTopology>
    ensures { MatchOption result
        ((t : MeshOutputTopology) → member_topologies (map member_view members.now) ≡ t ∷ [] → ⊥)
        (λ t. member_topologies (map member_view members.now) ≡ t ∷ []) }
{
    let mut found = Found::Nothing;
    for member in members {
        found = next(found, topology_of(&member.binding));
    }
    match found {
        Found::One(topology) => Some(topology),
        Found::Nothing | Found::More => None,
    }
}

/// The topology of a primitive type; `None` unless it has exactly one indices member.
pub fn topology_at(module: &Module, ty: Handle<key::IrType>) -> Option<MeshOutputTopology>
    ensures { MatchOption result
        ((t : MeshOutputTopology) → topologies_at (module_view «module».now).types ty ≡ t ∷ [] → ⊥)
        (λ t. topologies_at (module_view «module».now).types ty ≡ t ∷ []) }
{
    match members_at(module, ty) {
        Some(members) => only_topology(members),
        None => None,
    }
}

/// Whether a type is a struct.
pub fn is_struct(module: &Module, ty: Handle<key::IrType>) -> bool
    ensures { IsTrue result ↔ IsSome (members_at (module_view «module».now).types ty) }
{
    match members_at(module, ty) {
        Some(_) => true,
        None => false,
    }
}
