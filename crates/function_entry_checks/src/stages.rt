//! The requirements of a stage besides the function.

ghost use Rattle.std.specs.Prelude.{◌≡◌, ◌↔◌, All, MatchResult, IfSome, IsTrue};
ghost use Rattle.function_entry_checks.specs.Faults.{IsCapabilityFault, IsEarlyFault, IsMeshInfoFault, IsSizeFault, IsStageFault};
ghost use Rattle.ir_flags.specs.Sets.{Has};
ghost use Rattle.ir_items.specs.found.View.{entry_view};
ghost use Rattle.ir_kinds.specs.declared.stages.ShaderStage.TheVariants.{Mesh};
ghost use Rattle.spec_interface.specs.judged.Stages.{stage_row, SizeOK, EarlyOK, StageOK};
ghost use Rattle.spec_interface.specs.judged.Contexts.{stage_set};

use crate::error::EntryPointError;
use bitflags::Flags;
use function_varying_checks::VaryingError;
use ir_flags::{Capabilities, ShaderStages};
use ir_items::EntryPoint;
use ir_kinds::ShaderStage;
use spec_interface::MAX_WORKGROUP_SIZE;

/// The set of one stage.
pub const fn stage_set(stage: ShaderStage) -> ShaderStages
    ensures { result ≡ stage_set stage }
{
    match stage {
        ShaderStage::Vertex => ShaderStages::VERTEX,
        ShaderStage::Fragment => ShaderStages::FRAGMENT,
        ShaderStage::Compute => ShaderStages::COMPUTE,
        ShaderStage::Mesh => ShaderStages::MESH,
        ShaderStage::Task => ShaderStages::TASK,
        ShaderStage::RayGeneration => ShaderStages::RAY_GENERATION,
        ShaderStage::AnyHit => ShaderStages::ANY_HIT,
        ShaderStage::ClosestHit => ShaderStages::CLOSEST_HIT,
        ShaderStage::Miss => ShaderStages::MISS,
    }
}

// Whether a stage runs in workgroups.
const fn runs_in_workgroups(stage: ShaderStage) -> bool
    ensures { result ≡ (stage_row stage).workgroups }
{
    match stage {
        ShaderStage::Compute | ShaderStage::Mesh | ShaderStage::Task => true,
        ShaderStage::Vertex
        | ShaderStage::Fragment
        | ShaderStage::RayGeneration
        | ShaderStage::AnyHit
        | ShaderStage::ClosestHit
        | ShaderStage::Miss => false,
    }
}

// The capability that a stage requires, if any.
const fn stage_capability(stage: ShaderStage) -> Option<Capabilities>
    ensures { result ≡ (stage_row stage).needs }
{
    match stage {
        ShaderStage::Mesh | ShaderStage::Task => Some(Capabilities::MESH_SHADER),
        ShaderStage::RayGeneration
        | ShaderStage::AnyHit
        | ShaderStage::ClosestHit
        | ShaderStage::Miss => Some(Capabilities::RAY_TRACING_PIPELINE),
        ShaderStage::Vertex | ShaderStage::Fragment | ShaderStage::Compute => None,
    }
}

// Whether a stage is enabled.
fn check_capability(capabilities: Capabilities, stage: ShaderStage) -> Result<(), EntryPointError>
    ensures { MatchResult result
        (λ _. IfSome (stage_row stage).needs (λ c. Has capabilities.0 c.0))
        (IsCapabilityFault capabilities stage) }
{
    match stage_capability(stage) {
        Some(capability) if !capabilities.contains(capability) => {
            Err(EntryPointError::UnsupportedCapability(capability))
        }
        Some(_) | None => Ok(()),
    }
}

// Whether early depth testing is allowed in a stage.
fn check_early(capabilities: Capabilities, stage: ShaderStage) -> Result<(), EntryPointError>
    ensures { MatchResult result (λ _. EarlyOK capabilities stage) (IsEarlyFault capabilities stage) }
{
    let required = Capabilities::EARLY_DEPTH_TEST;
    if !capabilities.contains(required) {
        return Err(EntryPointError::Result(VaryingError::UnsupportedCapability(required)));
    }
    if stage != ShaderStage::Fragment {
        return Err(EntryPointError::UnexpectedEarlyDepthTest);
    }
    Ok(())
}

// Whether a workgroup can have this size in one dimension.
fn fits(workgroups: bool, size: u32) -> bool
    ensures { IsTrue result ↔ SizeOK workgroups size }
{
    if workgroups {
        1 <= size && size <= MAX_WORKGROUP_SIZE
    } else {
        size == 0
    }
}

// Whether a workgroup can have this size.
fn check_sizes(workgroups: bool, sizes: [u32; 3]) -> Result<(), EntryPointError>
    ensures { MatchResult result (λ _. All (SizeOK workgroups) sizes) (IsSizeFault workgroups sizes) }
{
    let [x, y, z] = sizes;
    if fits(workgroups, x) && fits(workgroups, y) && fits(workgroups, z) {
        return Ok(());
    }
    if workgroups {
        Err(EntryPointError::OutOfRangeWorkgroupSize)
    } else {
        Err(EntryPointError::UnexpectedWorkgroupSize)
    }
}

// Whether mesh shader attributes are present exactly for a mesh shader.
fn check_mesh_info(stage: ShaderStage, is_said: bool) -> Result<(), EntryPointError>
    ensures { MatchResult result (λ _. IsTrue is_said ↔ (stage ≡ Mesh)) (IsMeshInfoFault stage is_said) }
{
    if stage == ShaderStage::Mesh {
        if is_said {
            Ok(())
        } else {
            Err(EntryPointError::ExpectedMeshShaderAttributes)
        }
    } else if is_said {
        Err(EntryPointError::UnexpectedMeshShaderAttributes)
    } else {
        Ok(())
    }
}

/// Whether an entry point meets the requirements of its stage, besides its function.
pub fn check_stage(capabilities: Capabilities, entry: &EntryPoint) -> Result<(), EntryPointError>
    ensures { MatchResult result
        (λ _. StageOK capabilities (entry_view entry.now))
        (IsStageFault capabilities (entry_view entry.now)) }
{
    let stage = entry.stage;
    match check_capability(capabilities, stage) {
        Ok(()) => {}
        Err(error) => return Err(error),
    }
    match check_sizes(runs_in_workgroups(stage), entry.workgroup_size) {
        Ok(()) => {}
        Err(error) => return Err(error),
    }
    match check_mesh_info(stage, entry.mesh_info.is_some()) {
        Ok(()) => {}
        Err(error) => return Err(error),
    }
    match entry.early_depth_test {
        Some(_) => check_early(capabilities, stage),
        None => Ok(()),
    }
}
