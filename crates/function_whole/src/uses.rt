//! The uses of global variables by an entry point besides its function.

ghost use Rattle.std.specs.Prelude.{◌≡◌, ◌<◌, ◌≤◌, ◌↔◌, ◌⊎◌, ℕ, IfOk, IfSome, Some, length};
ghost use Rattle.std.specs.Int.{bit_at};
ghost use Rattle.ir_items.specs.judged.Plain.{PlainFunction, PlainModule};
ghost use Rattle.ir_items.specs.found.View.{entry_view};
ghost use Rattle.spec_expressions.specs.judged.Summaries.{HasUseBit};
ghost use Rattle.spec_interface.specs.judged.Uses.{OwnUse, mesh_output, own_payload_use};

use function_interface::Lower;
use ir_arena::handle::Handle;
use ir_items::EntryPoint;
use ir_kinds::ShaderStage;
use ir_types::key;
use spec_expressions::GlobalUse;
use std::alloc::{AllocError, Global};

// The uses of an entry point's payload.
const fn own_payload_use(stage: ShaderStage) -> GlobalUse
    ensures { result ≡ own_payload_use stage }
{
    match stage {
        ShaderStage::Task => GlobalUse(3),
        ShaderStage::Mesh => GlobalUse::READ,
        ShaderStage::Vertex
        | ShaderStage::Fragment
        | ShaderStage::Compute
        | ShaderStage::RayGeneration
        | ShaderStage::AnyHit
        | ShaderStage::ClosestHit
        | ShaderStage::Miss => GlobalUse(0),
    }
}

// The output variable of a mesh shader.
fn mesh_output(entry: &EntryPoint) -> Option<Handle<key::GlobalVariable>>
    ensures { result ≡ mesh_output (entry_view entry.now) }
{
    match &entry.mesh_info {
        Some(mesh) => Some(mesh.output_variable),
        None => None,
    }
}

// Notes a use of a variable, if there is one.
fn note_use<L: Lower>(
    lower: &L,
    info: &mut L::Info,
    global: Option<Handle<key::GlobalVariable>>,
    kinds: GlobalUse,
)
    requires there { IfSome global (λ g. g < length (L.summary lower.now info.old).uses) }
    ensures uses { (g k : ℕ) → HasUseBit (L.summary lower.now info.new).uses g k
        ↔ (HasUseBit (L.summary lower.now info.old).uses g k ⊎ ((global ≡ Some g) × (bit_at kinds.0 k ≡ 1))) }
    ensures globals { length (L.summary lower.now info.new).uses ≡ length (L.summary lower.now info.old).uses }
    ensures pairs { (L.summary lower.now info.new).pairs ≡ (L.summary lower.now info.old).pairs }
    ensures may_kill { (L.summary lower.now info.new).may_kill ≡ (L.summary lower.now info.old).may_kill }
    ensures stages { (L.noted lower.now info.new).0 ≡ (L.noted lower.now info.old).0 }
    ensures blending { L.blending lower.now info.new ≡ L.blending lower.now info.old }
    ensures own { (m : PlainModule) (f : PlainFunction) → L.own lower.now m f info.old → L.own lower.now m f info.new }
{
    match global {
        None => {}
        Some(global) => {
            let stages = lower.stages(info);
            lower.note(info, stages, &[(global, kinds)], false);
        }
    }
}

/// Notes the uses of the payload and mesh output variables of an entry point. Requires that both exist. It allocates nothing.
pub(crate) fn note_own<L: Lower>(lower: &L, info: &mut L::Info, entry: &EntryPoint)
    requires payload { IfSome entry.now.task_payload (λ g. g < length (L.summary lower.now info.old).uses) }
    requires output { IfSome (mesh_output (entry_view entry.now)) (λ g. g < length (L.summary lower.now info.old).uses) }
    ensures uses { (g k : ℕ) → HasUseBit (L.summary lower.now info.new).uses g k
        ↔ (HasUseBit (L.summary lower.now info.old).uses g k ⊎ OwnUse (entry_view entry.now) g k) }
    ensures globals { length (L.summary lower.now info.new).uses ≡ length (L.summary lower.now info.old).uses }
    ensures pairs { (L.summary lower.now info.new).pairs ≡ (L.summary lower.now info.old).pairs }
    ensures may_kill { (L.summary lower.now info.new).may_kill ≡ (L.summary lower.now info.old).may_kill }
    ensures stages { (L.noted lower.now info.new).0 ≡ (L.noted lower.now info.old).0 }
    ensures blending { L.blending lower.now info.new ≡ L.blending lower.now info.old }
    ensures own { (m : PlainModule) (f : PlainFunction) → L.own lower.now m f info.old → L.own lower.now m f info.new }
{
    let kinds = own_payload_use(entry.stage);
    note_use(lower, info, entry.task_payload, kinds);
    note_use(lower, info, mesh_output(entry), GlobalUse::READ);
}

/// The uses of all global variables, in order. Requires that there are this many. The error is out of memory.
pub(crate) fn uses_of<L: Lower>(
    lower: &L,
    alloc: Global,
    info: &L::Info,
    count: usize,
) -> Result<Vec<GlobalUse>, AllocError>
    requires many { count ≡ length (L.summary lower.now info.now).uses }
    requires within { count ≤ 4294967295 }
    ensures { IfOk result (λ uses. uses.items ≡ (L.summary lower.now info.now).uses) }
{
    let mut uses = Vec::with_capacity(alloc, count)?;
    for index in 0..count {
        uses.push(lower.uses(info, Handle::at(index)))?;
    }
    Ok(uses)
}
