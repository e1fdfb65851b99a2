//! The payload from a task shader to mesh shaders.

ghost use Rattle.std.specs.Prelude.{◌≡◌, ◌<◌, IfSome, MatchResult, length};
ghost use Rattle.function_entry_checks.specs.Faults.{IsPayloadFault};
ghost use Rattle.ir_items.specs.found.View.{entry_view, module_view};
ghost use Rattle.spec_interface.specs.judged.Payloads.{PayloadOK, has_payload};

use crate::error::EntryPointError;
use ir_items::{EntryPoint, Module};
use ir_kinds::ShaderStage;
use spec_interface::{is_task_payload, space_at};

// Whether a stage can have a task payload.
const fn has_payload(stage: ShaderStage) -> bool
    ensures { result ≡ has_payload stage }
{
    match stage {
        ShaderStage::Mesh | ShaderStage::Task => true,
        ShaderStage::Vertex
        | ShaderStage::Fragment
        | ShaderStage::Compute
        | ShaderStage::RayGeneration
        | ShaderStage::AnyHit
        | ShaderStage::ClosestHit
        | ShaderStage::Miss => false,
    }
}

/// Whether an entry point has a task payload exactly if its stage requires or allows one.
pub fn check_payload(module: &Module, entry: &EntryPoint) -> Result<(), EntryPointError>
    requires there { IfSome entry.now.task_payload (λ g. g < length (module_view «module».now).globals) }
    ensures { MatchResult result
        (λ _. PayloadOK (module_view «module».now) (entry_view entry.now))
        (IsPayloadFault (module_view «module».now) (entry_view entry.now)) }
{
    match entry.task_payload {
        None => {
            if entry.stage == ShaderStage::Task {
                return Err(EntryPointError::ExpectedTaskPayload);
            }
            Ok(())
        }
        Some(payload) => {
            if !has_payload(entry.stage) {
                return Err(EntryPointError::UnexpectedTaskPayload);
            }
            if !is_task_payload(space_at(module, payload)) {
                return Err(EntryPointError::TaskPayloadWrongAddressSpace);
            }
            Ok(())
        }
    }
}
