// Words for descriptions of bindings.

use ir_kinds::{AddressSpace, ShaderStage};

/// The word for a stage.
pub(crate) fn stage_word(stage: ShaderStage) -> &'static str {
    match stage {
        ShaderStage::Vertex => "vertex",
        ShaderStage::Fragment => "fragment",
        ShaderStage::Compute => "compute",
        ShaderStage::Mesh => "mesh",
        ShaderStage::Task => "task",
        ShaderStage::RayGeneration => "ray_generation",
        ShaderStage::AnyHit => "any_hit",
        ShaderStage::ClosestHit => "closest_hit",
        ShaderStage::Miss => "miss",
    }
}

/// The word for the address space of a variable.
pub(crate) fn space_word(space: AddressSpace) -> &'static str {
    match space {
        AddressSpace::Function => "function",
        AddressSpace::Private => "private",
        AddressSpace::WorkGroup => "workgroup",
        AddressSpace::Uniform => "uniform",
        AddressSpace::Storage { .. } => "storage",
        AddressSpace::Handle => "handle",
        AddressSpace::Immediate => "immediate",
        AddressSpace::TaskPayload => "task_payload",
        AddressSpace::RayPayload => "ray_payload",
        AddressSpace::IncomingRayPayload => "incoming_ray_payload",
    }
}

// The maximum number of bytes of a name to display, so that the size of a report is linear in its number of lines.
const MOST_BYTES: usize = 64;

/// A name, or a prefix of it if it is long.
pub(crate) fn beginning(name: &str) -> &str {
    if name.len() <= MOST_BYTES {
        return name;
    }
    // a UTF-8 character has at most four bytes
    for less in 0..4usize {
        if let Some(short) = name.get(..MOST_BYTES.saturating_sub(less)) {
            return short;
        }
    }
    ""
}
