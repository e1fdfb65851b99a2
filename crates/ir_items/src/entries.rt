// Entry points and mesh shader outputs.
ghost use Rattle.std.specs.Prelude.{◌≡◌, IfOk};
ghost use Rattle.ir_items.specs.found.Copies.{spanned_entry};

use crate::functions::Function;
use ir_blocks::ir_arena::copied::Copied;
use ir_blocks::ir_arena::handle::Handle;
use ir_blocks::ir_types::key;
use ir_kinds::{EarlyDepthTest, MeshOutputTopology, ShaderStage};
use std::alloc::{AllocError, Global};

/// The outputs of a mesh shader (naga's `MeshStageInfo`).
#[derive(Clone, Copy, PartialEq, Debug)]
pub struct MeshStageInfo {
    /// The primitive topology.
    pub topology: MeshOutputTopology,
    /// The maximum number of vertices.
    pub max_vertices: u32,
    /// The override for it, as a global expression, if any.
    pub max_vertices_override: Option<Handle<key::Expression>>,
    /// The maximum number of primitives.
    pub max_primitives: u32,
    /// The override for it, as a global expression, if any.
    pub max_primitives_override: Option<Handle<key::Expression>>,
    /// The type of a vertex output.
    pub vertex_output_type: Handle<key::IrType>,
    /// The type of a primitive output.
    pub primitive_output_type: Handle<key::IrType>,
    /// The workgroup variable with the outputs.
    pub output_variable: Handle<key::GlobalVariable>,
}

/// An entry point of a shader stage (naga's `EntryPoint`).
#[derive(PartialEq, Debug, Drop)]
pub struct EntryPoint {
    /// The name by which a pipeline selects it.
    pub name: String,
    /// The stage.
    pub stage: ShaderStage,
    /// The early depth test, if any.
    pub early_depth_test: Option<EarlyDepthTest>,
    /// The workgroup size in each dimension.
    pub workgroup_size: [u32; 3],
    /// The outputs of a mesh shader.
    pub mesh_info: Option<MeshStageInfo>,
    /// The variable with the task payload.
    pub task_payload: Option<Handle<key::GlobalVariable>>,
    /// The function.
    pub function: Function,
}

impl EntryPoint {
    /// An equal entry point in memory of its own, with the same spans. The error is out of memory.
    pub fn clone(&self, alloc: Global) -> Result<EntryPoint, AllocError>
        ensures { IfOk result (λ copy. spanned_entry copy ≡ spanned_entry self.now) }
    {
        Ok(EntryPoint {
            name: String::from_str(alloc, self.name.as_str())?,
            stage: self.stage,
            early_depth_test: self.early_depth_test,
            workgroup_size: self.workgroup_size,
            mesh_info: self.mesh_info,
            task_payload: self.task_payload,
            function: self.function.clone(alloc)?,
        })
    }
}

impl Copied for EntryPoint {
    ghost use Rattle.ir_items.specs.found.Copies.{SpannedEntry, spanned_entry};

    ghost View = { SpannedEntry };

    ghost view = { spanned_entry };

    fn copied(&self, alloc: Global) -> Result<EntryPoint, AllocError> {
        self.clone(alloc)
    }
}
