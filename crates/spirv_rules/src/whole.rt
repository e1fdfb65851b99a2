// All rules, in order.

use crate::layouts::check_layouts;
use crate::operands::check_operands;
use spirv_numbers::{numbers, ops};
use spirv_words::{Failure, Feature, Listing, Malformed, SpirvError, Unsupported, number_at};
use std::alloc::Global;

/// Whether a module keeps these rules, in this order: its version is one that the standard has (malformed); each of its entry points
/// is of a stage that the IR has, and it has no references to buffers (unsupported); its buffers are laid out, and the operands and
/// the results of its functions are of types that their instructions take and give (malformed). The error is what is wrong first,
/// or out of memory.
pub fn check_rules(alloc: Global, listing: &Listing) -> Result<(), SpirvError> {
    let mut failed = Failure::NONE;
    check_version(listing, &mut failed);
    check_stages(listing, &mut failed);
    check_references(listing, &mut failed);
    if failed.first.is_none() {
        check_layouts(alloc, listing, &mut failed);
        check_operands(listing, &mut failed);
    }
    failed.answer(())
}

// The versions 1.0 to 1.6: the second word has the major and the minor number in its middle bytes (section 2.3).
const FIRST_VERSION: u32 = 0x10000;

const LAST_VERSION: u32 = 0x10600;

// Whether the header has a version of the standard.
fn check_version(listing: &Listing, failed: &mut Failure) {
    let version = number_at(&listing.words, 1);
    let is_known = FIRST_VERSION <= version && version <= LAST_VERSION && version % 256 == 0;
    if !is_known {
        failed.fail(SpirvError::malformed(Malformed::Version, 1));
    }
}

// Whether the IR has a stage for this execution model.
fn has_stage(model: u32) -> bool {
    matches!(
        model,
        numbers::MODEL_VERTEX
            | numbers::MODEL_FRAGMENT
            | numbers::MODEL_GL_COMPUTE
            | numbers::MODEL_RAY_GENERATION_KHR
            | numbers::MODEL_ANY_HIT_KHR
            | numbers::MODEL_CLOSEST_HIT_KHR
            | numbers::MODEL_MISS_KHR
            | numbers::MODEL_TASK_EXT
            | numbers::MODEL_MESH_EXT
    )
}

// Whether each entry point is of a stage that the IR has.
fn check_stages(listing: &Listing, failed: &mut Failure) {
    for place in &listing.parts.entry_points {
        let entry = listing.at(*place);
        let model = failed.take(listing.need(&entry, 0), 0);
        if !has_stage(model) {
            failed.fail(entry.unsupported_as(Unsupported::Stage(model)));
        }
    }
}

// Whether no pointer is a reference to a buffer.
fn check_references(listing: &Listing, failed: &mut Failure) {
    for place in &listing.parts.declarations {
        let instruction = listing.at(*place);
        let class = match instruction.opcode {
            ops::TYPE_FORWARD_POINTER => listing.operand(&instruction, 1),
            ops::TYPE_POINTER => listing.operand(&instruction, 0),
            _ => None,
        };
        if class == Some(numbers::CLASS_PHYSICAL_STORAGE_BUFFER) {
            failed.fail(instruction.unsupported_by(Feature::BufferReference));
        }
    }
}
