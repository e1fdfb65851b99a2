// Outputs of mesh shaders, by their variable.

use ir_arena::handle::Handle;
use ir_items::{IrType, MeshStageInfo, key};
use ir_kinds::{Binding, BuiltIn, MeshOutputTopology};
use ir_sets::unique_arena::UniqueArena;
use ir_types::{ArraySize, TypeInner};

// The types of a module.
type Types = UniqueArena<IrType, key::IrType>;

// An array of outputs: the type of an element, the most elements, and the override that gives them.
#[derive(Clone, Copy)]
struct Outputs {
    element: Handle<key::IrType>,
    most: u32,
    by: Option<Handle<key::Override>>,
}

// The output of a mesh shader, with the overrides of the most vertices and of the most primitives.
#[derive(Clone, Copy)]
pub(crate) struct MeshOutput {
    pub info: MeshStageInfo,
    pub vertices_by: Option<Handle<key::Override>>,
    pub primitives_by: Option<Handle<key::Override>>,
}

// The member of a struct type with this built-in value.
fn member_of(
    types: &Types,
    ty: Handle<key::IrType>,
    built_in: BuiltIn,
) -> Option<Handle<key::IrType>> {
    let found = match types.get_handle(ty) {
        Ok(found) => found,
        Err(_) => return None,
    };
    let members = match &found.inner {
        TypeInner::Struct { members, .. } => members,
        _ => return None,
    };
    for member in members {
        if member.binding == Some(Binding::BuiltIn(built_in)) {
            return Some(member.ty);
        }
    }
    None
}

// The elements of an array type.
fn elements_of(types: &Types, ty: Handle<key::IrType>) -> Option<Outputs> {
    let found = match types.get_handle(ty) {
        Ok(found) => found,
        Err(_) => return None,
    };
    match &found.inner {
        TypeInner::Array { base, size, .. } => Some(elements(*base, *size)),
        _ => None,
    }
}

// So many elements of a type.
fn elements(element: Handle<key::IrType>, size: ArraySize) -> Outputs {
    let (most, by) = match size {
        ArraySize::Constant(count) => (count, None),
        ArraySize::Pending(by) => (0, Some(by)),
        ArraySize::Dynamic => (0, None),
    };
    Outputs { element, most, by }
}

// The outputs with this built-in value. Those of a variable of another type are placeholders, which the validator refuses.
fn outputs_of(types: &Types, ty: Handle<key::IrType>, built_in: BuiltIn) -> Outputs {
    let found = match member_of(types, ty, built_in) {
        Some(member) => elements_of(types, member),
        None => None,
    };
    found.unwrap_or(Outputs {
        element: ty,
        most: 0,
        by: None,
    })
}

// The topology of primitives of this type.
fn topology_of(types: &Types, ty: Handle<key::IrType>) -> MeshOutputTopology {
    if member_of(types, ty, BuiltIn::PointIndex).is_some() {
        MeshOutputTopology::Points
    } else if member_of(types, ty, BuiltIn::LineIndices).is_some() {
        MeshOutputTopology::Lines
    } else {
        MeshOutputTopology::Triangles
    }
}

// The output of the mesh shader that has this variable, of this type.
pub(crate) fn mesh_output(
    types: &Types,
    ty: Handle<key::IrType>,
    variable: Handle<key::GlobalVariable>,
) -> MeshOutput {
    let vertices = outputs_of(types, ty, BuiltIn::Vertices);
    let primitives = outputs_of(types, ty, BuiltIn::Primitives);
    MeshOutput {
        info: MeshStageInfo {
            topology: topology_of(types, primitives.element),
            max_vertices: vertices.most,
            max_vertices_override: None,
            max_primitives: primitives.most,
            max_primitives_override: None,
            vertex_output_type: vertices.element,
            primitive_output_type: primitives.element,
            output_variable: variable,
        },
        vertices_by: vertices.by,
        primitives_by: primitives.by,
    }
}
