// Execution models and modes of entry points (sections 3.3 and 3.6).

use ir_flags::Capabilities;
use ir_kinds::{EarlyDepthTest, ShaderStage};
use spirv_declarations::Declared;
use spirv_numbers::{numbers, ops};
use spirv_tables::Decorated;
use spirv_words::{Failure, Feature, Instruction, Listing, Unsupported};

/// The execution modes of an entry point.
#[derive(Clone, Copy)]
pub struct Modes {
    /// Its early depth test.
    pub early: Option<EarlyDepthTest>,
    /// The size of its workgroup.
    pub size: [u32; 3],
}

/// The stage of an entry point.
pub fn stage_of(listing: &Listing, entry: &Instruction, failed: &mut Failure) -> ShaderStage {
    match failed.take(listing.need(entry, 0), 0) {
        numbers::MODEL_VERTEX => ShaderStage::Vertex,
        numbers::MODEL_FRAGMENT => ShaderStage::Fragment,
        numbers::MODEL_GL_COMPUTE => ShaderStage::Compute,
        numbers::MODEL_RAY_GENERATION_KHR => ShaderStage::RayGeneration,
        numbers::MODEL_ANY_HIT_KHR => ShaderStage::AnyHit,
        numbers::MODEL_CLOSEST_HIT_KHR => ShaderStage::ClosestHit,
        numbers::MODEL_MISS_KHR => ShaderStage::Miss,
        numbers::MODEL_TASK_EXT => ShaderStage::Task,
        numbers::MODEL_MESH_EXT => ShaderStage::Mesh,
        model => {
            failed.fail(entry.unsupported_as(Unsupported::Stage(model)));
            ShaderStage::Compute
        }
    }
}

// The workgroup size in the operands from this index on, each an id of a constant or a literal.
fn read_size(
    listing: &Listing,
    declared: &Declared,
    instruction: &Instruction,
    first: usize,
    by_constants: bool,
    failed: &mut Failure,
) -> [u32; 3] {
    let mut size = [0, 0, 0];
    let mut place = first;
    for word in &mut size {
        *word = failed.take(listing.need(instruction, place), 0);
        if by_constants {
            let value = declared.constants.value(*word).unwrap_or(-1);
            *word = match u32::try_from(value) {
                Ok(value) => value,
                Err(_) => {
                    failed.fail(instruction.unsupported_by(Feature::WorkgroupSize));
                    0
                }
            };
        }
        place = place.saturating_add(1);
    }
    size
}

/// The workgroup size given by the constant with the built-in `WorkgroupSize`, if there is one.
pub fn decorated_size(
    listing: &Listing,
    declared: &Declared,
    failed: &mut Failure,
) -> Option<[u32; 3]> {
    for place in &listing.parts.declarations {
        let instruction = listing.at(*place);
        let is_composite = matches!(
            instruction.opcode,
            ops::CONSTANT_COMPOSITE | ops::SPEC_CONSTANT_COMPOSITE
        );
        if is_composite {
            let said = Decorated::of(listing, instruction.id, None).built_in;
            if said == Some(numbers::BUILT_IN_WORKGROUP_SIZE) {
                return Some(read_size(listing, declared, &instruction, 0, true, failed));
            }
        }
    }
    None
}

/// The execution modes of the entry point with this function.
pub fn modes_of(
    listing: &Listing,
    declared: &mut Declared,
    function: u32,
    failed: &mut Failure,
) -> Modes {
    let mut modes = Modes {
        early: None,
        size: [0, 0, 0],
    };
    for place in listing.modes(function) {
        let mode = listing.at(*place);
        let number = failed.take(listing.need(&mode, 1), 0);
        if number == numbers::MODE_EARLY_FRAGMENT_TESTS {
            modes.early = Some(EarlyDepthTest::Force);
            declared.demands.ask(Capabilities::EARLY_DEPTH_TEST);
        }
        if number == numbers::MODE_LOCAL_SIZE || number == numbers::MODE_LOCAL_SIZE_ID {
            let by_constants = number == numbers::MODE_LOCAL_SIZE_ID;
            modes.size = read_size(listing, declared, &mode, 2, by_constants, failed);
        }
    }
    modes
}
