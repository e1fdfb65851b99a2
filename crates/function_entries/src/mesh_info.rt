//! The attributes implied by the output variable of a mesh shader.

ghost use Rattle.std.specs.Prelude.{◌<◌, ◌≡◌, [], MatchOption, None, length, slice_index_or};
ghost use Rattle.function_entries.specs.MeshFaults.{IsImpliedFault};
ghost use Rattle.ir_types.specs.found.Faults.{error_of, spans_of};
ghost use Rattle.ir_items.specs.judged.Plain.{PlainModule};
ghost use Rattle.spec_interface.specs.judged.Meshes.{ImpliesMeshInfo};

use crate::meshes::implied_mesh;
use function_entry_checks::EntryPointError;
use ir_arena::handle::Handle;
use ir_items::{MeshStageInfo, Module};
use ir_kinds::MeshOutputTopology;
use ir_types::key;
use ir_types::with_span::WithSpan;
use std::alloc::Global;

/// The implied `MeshStageInfo`, the overrides of the maximum numbers of vertices and primitives, and the error, if any.
pub type MeshAnalysis = (
    MeshStageInfo,
    [Option<Handle<key::Override>>; 2],
    Option<WithSpan<EntryPointError>>,
);

/// The attributes implied by the output variable of a mesh shader.
pub trait MeshInfo {
    /// The module with the variables.
    ghost module_of: { Self → PlainModule };

    /// The attributes implied by an output variable, without overrides (naga's `Module::analyze_mesh_shader_info`). If the
    /// variable is invalid, the error says why, and the rest has no meaning. Requires that the variable exists.
    fn analyze_mesh_shader_info(
        &self,
        alloc: Global,
        variable: Handle<key::GlobalVariable>,
    ) -> MeshAnalysis
        requires { variable < length (module_of self.now).globals }
        ensures { MatchOption result.2
            (ImpliesMeshInfo (module_of self.now) variable result.0 (slice_index_or result.1 0 None) (slice_index_or result.1 1 None))
            (λ f. IsImpliedFault (module_of self.now) variable (error_of f) × (spans_of f ≡ [])) };
}

impl MeshInfo for Module {
    ghost use Rattle.ir_items.specs.found.View.{module_view};

    ghost module_of = { module_view };

    fn analyze_mesh_shader_info(
        &self,
        alloc: Global,
        variable: Handle<key::GlobalVariable>,
    ) -> MeshAnalysis {
        match implied_mesh(self, variable) {
            Ok(implied) => (
                implied.info,
                [implied.vertices_by, implied.primitives_by],
                None,
            ),
            Err(error) => {
                let ty = self.global_variables[variable].ty;
                let info = MeshStageInfo {
                    topology: MeshOutputTopology::Triangles,
                    max_vertices: 0,
                    max_vertices_override: None,
                    max_primitives: 0,
                    max_primitives_override: None,
                    vertex_output_type: ty,
                    primitive_output_type: ty,
                    output_variable: variable,
                };
                (info, [None, None], Some(WithSpan::new(alloc, error)))
            }
        }
    }
}
