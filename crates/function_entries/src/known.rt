//! Facts about the interfaces of a module's entry points, found once for all of them.

ghost use Rattle.std.specs.Prelude.{◌≡◌, ◌∷◌, [], IfOk, List, MatchOption, OnOk};
ghost use Rattle.function_entries.specs.Interfaces.{AreInterfacesKnown, AreMeshesKnown, ArePartsAt};
ghost use Rattle.ir_flags.specs.declared.settings.Capabilities.{Capabilities};
ghost use Rattle.ir_flags.specs.declared.settings.ValidationFlags.{ValidationFlags};
ghost use Rattle.ir_items.specs.found.View.{module_view};
ghost use Rattle.ir_kinds.specs.declared.stages.MeshOutputTopology.{MeshOutputTopology};
ghost use Rattle.ir_types.specs.judged.Plain.{PlainType};
ghost use Rattle.spec_interface.specs.judged.Members.{topologies_at};
ghost use Rattle.spec_interface.specs.declared.parts.MeshParts.{MeshParts};

use function_varyings::KnownTypes;
use ir_arena::handle::Handle;
use ir_items::Module;
use ir_kinds::MeshOutputTopology;
use ir_types::key;
use spec_interface::{MeshParts, members_at, parts_of, topology_at};
use std::alloc::{AllocError, Global};
use std::collections::BTreeMap;

/// Facts about mesh outputs by type: their members, and topologies of primitives.
#[derive(Drop)]
pub(crate) struct KnownMeshes {
    parts: BTreeMap<u32, MeshParts>,
    topologies: BTreeMap<u32, MeshOutputTopology>,
}

// The types of the four members of a struct type; `None` if one does not occur exactly once.
fn parts_at(module: &Module, ty: Handle<key::IrType>) -> Option<MeshParts>
    ensures { MatchOption result
        ((t : MeshParts) → ArePartsAt (module_view «module».now).types ty t → ⊥)
        (ArePartsAt (module_view «module».now).types ty) }
{
    match members_at(module, ty) {
        Some(members) => match parts_of(members) {
            Some(parts) => Some(parts),
            None => None,
        },
        None => None,
    }
}

impl KnownMeshes {
    // Empty. It allocates nothing.
    fn new(alloc: Global) -> KnownMeshes
        ensures { (types : List PlainType) → AreMeshesKnown types result }
    {
        KnownMeshes {
            parts: BTreeMap::new(alloc),
            topologies: BTreeMap::new(alloc),
        }
    }

    /// The types of the four members of a struct type; `None` if one does not occur exactly once. The error is out of memory.
    pub(crate) fn find_parts(
        &mut self,
        module: &Module,
        ty: Handle<key::IrType>,
    ) -> Result<Option<MeshParts>, AllocError>
        requires known { AreMeshesKnown (module_view «module».now).types self.old }
        ensures known { OnOk result (AreMeshesKnown (module_view «module».now).types self.new) }
        ensures found { IfOk result (λ found. MatchOption found
            ((t : MeshParts) → ArePartsAt (module_view «module».now).types ty t → ⊥)
            (ArePartsAt (module_view «module».now).types ty)) }
    {
        let place = ty.index() as u32;
        if let Some(parts) = self.parts.get(&place) {
            return Ok(Some(*parts));
        }
        let Some(parts) = parts_at(module, ty) else {
            return Ok(None);
        };
        let kept = parts;
        match self.parts.insert(place, kept) {
            Ok(_) => Ok(Some(parts)),
            Err(_) => Err(AllocError),
        }
    }

    /// The topology of a primitive type; `None` if it does not have exactly one built-in with its vertices. The error is out of
    /// memory.
    pub(crate) fn find_topology(
        &mut self,
        module: &Module,
        ty: Handle<key::IrType>,
    ) -> Result<Option<MeshOutputTopology>, AllocError>
        requires known { AreMeshesKnown (module_view «module».now).types self.old }
        ensures known { OnOk result (AreMeshesKnown (module_view «module».now).types self.new) }
        ensures found { IfOk result (λ found. MatchOption found
            ((t : MeshOutputTopology) → topologies_at (module_view «module».now).types ty ≡ t ∷ [] → ⊥)
            (λ t. topologies_at (module_view «module».now).types ty ≡ t ∷ [])) }
    {
        let place = ty.index() as u32;
        if let Some(topology) = self.topologies.get(&place) {
            return Ok(Some(*topology));
        }
        let Some(topology) = topology_at(module, ty) else {
            return Ok(None);
        };
        match self.topologies.insert(place, topology) {
            Ok(_) => Ok(Some(topology)),
            Err(_) => Err(AllocError),
        }
    }
}

/// Facts about the interfaces of a module's entry points: shared by all of them, and extended by each check.
#[derive(Drop)]
pub struct KnownInterfaces {
    pub(crate) varyings: KnownTypes,
    pub(crate) meshes: KnownMeshes,
}

impl KnownInterfaces {
    /// Empty. It allocates nothing.
    pub fn new(alloc: Global) -> KnownInterfaces
        ensures { (flags : ValidationFlags) (capabilities : Capabilities) (types : List PlainType) → AreInterfacesKnown flags capabilities types result }
    {
        KnownInterfaces {
            varyings: KnownTypes::new(alloc),
            meshes: KnownMeshes::new(alloc),
        }
    }
}
