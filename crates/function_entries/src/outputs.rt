//! Whether a mesh shader's output is valid.

ghost use Rattle.std.specs.Prelude.{◌≡◌, ◌<◌, MatchResult, OnOk, length};
ghost use Rattle.function_entry_checks.specs.Faults.{IsRefusedFor};
ghost use Rattle.function_entries.specs.Contexts.{AreKnownIn, AreSharedIn, IsKnown, entry_in, module_in};
ghost use Rattle.function_entries.specs.Interfaces.{AreMeshesKnown};
ghost use Rattle.function_entries.specs.OutputFaults.{IsMeshFault, IsOwnMeshFault, IsPointFault, IsSpaceFault, IsVertexFault};
ghost use Rattle.ir_flags.specs.Sets.{Has};
ghost use Rattle.ir_flags.specs.declared.settings.TheConstants.Capabilities.{MESH_SHADER_POINT_TOPOLOGY};
ghost use Rattle.ir_items.specs.found.View.{module_view};
ghost use Rattle.ir_kinds.specs.declared.stages.MeshOutputTopology.TheVariants.{Points};
ghost use Rattle.spec_interface.specs.judged.Meshes.{IsSaid, MeshOK, VertexOK};
ghost use Rattle.ir_kinds.specs.declared.spaces.AddressSpace.TheVariants.{WorkGroup};
ghost use Rattle.spec_interface.specs.judged.Payloads.{space_at};

use crate::context::EntryContext;
use crate::known::{KnownInterfaces, KnownMeshes};
use crate::meshes::check_said;
use crate::varyings::check_output;
use bitflags::Flags;
use function_entry_checks::EntryPointError;
use function_varyings::KnownTypes;
use ir_arena::handle::Handle;
use ir_flags::Capabilities;
use ir_items::{MeshStageInfo, Module};
use ir_kinds::MeshOutputTopology;
use ir_types::key;
use ir_types::refusal::Refusal;
use ir_types::with_span::WithSpan;
use spec_interface::{Direction, is_workgroup, space_at};
use std::alloc::Global;

// Whether a mesh output is in workgroup memory.
fn check_space(module: &Module, mesh: &MeshStageInfo) -> Result<(), EntryPointError>
    requires { mesh.now.output_variable < length (module_view «module».now).globals }
    ensures { MatchResult result
        (λ _. space_at (module_view «module».now) mesh.now.output_variable ≡ Some WorkGroup)
        (IsSpaceFault (module_view «module».now) mesh.now) }
{
    if is_workgroup(space_at(module, mesh.output_variable)) {
        Ok(())
    } else {
        Err(EntryPointError::WrongMeshOutputAddressSpace)
    }
}

// Whether point primitives are enabled, if used.
fn check_points(capabilities: Capabilities, mesh: &MeshStageInfo) -> Result<(), EntryPointError>
    ensures { MatchResult result
        (λ _. mesh.now.topology ≡ Points → Has capabilities.0 MESH_SHADER_POINT_TOPOLOGY.0)
        (IsPointFault capabilities mesh.now) }
{
    let required = Capabilities::MESH_SHADER_POINT_TOPOLOGY;
    if mesh.topology == MeshOutputTopology::Points && !capabilities.contains(required) {
        return Err(EntryPointError::UnsupportedCapability(required));
    }
    Ok(())
}

// Whether the output variable of a mesh shader is in workgroup memory, and its attributes are the implied ones.
fn check_own(
    alloc: Global,
    capabilities: Capabilities,
    module: &Module,
    known: &mut KnownMeshes,
    mesh: &MeshStageInfo,
) -> Result<(), Refusal<EntryPointError>>
    requires within { mesh.now.output_variable < length (module_view «module».now).globals }
    requires known { AreMeshesKnown (module_view «module».now).types known.old }
    ensures known { OnOk result (AreMeshesKnown (module_view «module».now).types known.new) }
    ensures fine { let m = module_view «module».now in
        MatchResult result
        (λ _. (space_at m mesh.now.output_variable ≡ Some WorkGroup) × IsSaid m mesh.now × (mesh.now.topology ≡ Points → Has capabilities.0 MESH_SHADER_POINT_TOPOLOGY.0))
        (IsRefusedFor (IsOwnMeshFault capabilities m mesh.now)) }
{
    match check_space(module, mesh) {
        Ok(()) => {}
        Err(error) => return Err(Refusal::Fault(WithSpan::new(alloc, error))),
    }
    match check_said(alloc, module, known, mesh) {
        Ok(()) => {}
        Err(refusal) => return Err(refusal),
    }
    match check_points(capabilities, mesh) {
        Ok(()) => Ok(()),
        Err(error) => Err(Refusal::Fault(WithSpan::new(alloc, error))),
    }
}

// Whether a type is valid for vertices of a mesh shader, which require a position.
fn check_vertices(
    alloc: Global,
    context: &EntryContext<'_>,
    known: &mut KnownTypes,
    ty: Handle<key::IrType>,
) -> Result<(), Refusal<EntryPointError>>
    requires told { IsKnown context.now }
    requires known { AreKnownIn context.now known.old }
    ensures known { OnOk result (AreKnownIn context.now known.new) }
    ensures fine { MatchResult result
        (λ _. VertexOK context.now.flags context.now.capabilities (module_in context.now) (entry_in context.now) ty)
        (IsRefusedFor (IsVertexFault context.now.flags context.now.capabilities (module_in context.now) (entry_in context.now) ty)) }
{
    match check_output(alloc, context, known, ty, Direction::VertexOutput) {
        Ok(shown) => {
            if shown.positioned {
                return Ok(());
            }
            let error = EntryPointError::MissingVertexOutputPosition;
            Err(Refusal::Fault(WithSpan::new(alloc, error)))
        }
        Err(refusal) => Err(refusal),
    }
}

/// Whether the outputs and the attributes of a mesh shader are valid.
pub(crate) fn check_mesh(
    alloc: Global,
    context: &EntryContext<'_>,
    known: &mut KnownInterfaces,
    mesh: &MeshStageInfo,
) -> Result<(), Refusal<EntryPointError>>
    requires told { IsKnown context.now }
    requires known { AreSharedIn context.now known.old }
    requires within { mesh.now.output_variable < length (module_in context.now).globals }
    ensures known { OnOk result (AreSharedIn context.now known.new) }
    ensures fine { MatchResult result
        (λ _. MeshOK context.now.flags context.now.capabilities (module_in context.now) (entry_in context.now) mesh.now)
        (IsRefusedFor (IsMeshFault context.now.flags context.now.capabilities (module_in context.now) (entry_in context.now) mesh.now)) }
{
    match check_own(
        alloc,
        context.capabilities,
        context.module,
        &mut known.meshes,
        mesh,
    ) {
        Ok(()) => {}
        Err(refusal) => return Err(refusal),
    }
    let varyings = &mut known.varyings;
    match check_vertices(alloc, context, varyings, mesh.vertex_output_type) {
        Ok(()) => {}
        Err(refusal) => return Err(refusal),
    }
    let ty = mesh.primitive_output_type;
    match check_output(alloc, context, varyings, ty, Direction::PrimitiveOutput) {
        Ok(_) => Ok(()),
        Err(refusal) => Err(refusal),
    }
}
