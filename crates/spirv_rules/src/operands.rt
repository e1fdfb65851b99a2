// The types of operands and results.

use crate::composites::wrong_composites;
use crate::kinds::Wrong;
use crate::math::wrong_math;
use crate::memory::wrong_memory;
use crate::numbers::wrong_numbers;
use spirv_numbers::ops;
use spirv_words::{Failure, Instruction, Listing};

// What is wrong with the types of an instruction, if anything: each kind is known to one of these.
fn wrong(listing: &Listing, instruction: &Instruction) -> Wrong {
    match instruction.opcode {
        ops::EXT_INST => wrong_math(listing, instruction),
        ops::FUNCTION_CALL..=ops::COPY_MEMORY
        | ops::ACCESS_CHAIN
        | ops::IN_BOUNDS_ACCESS_CHAIN
        | ops::COPY_OBJECT
        | ops::SELECT => wrong_memory(listing, instruction),
        ops::VECTOR_EXTRACT_DYNAMIC..=ops::IMAGE_READ
        | ops::VECTOR_TIMES_SCALAR..=ops::MATRIX_TIMES_MATRIX => {
            wrong_composites(listing, instruction)
        }
        _ => wrong_numbers(listing, instruction),
    }
}

/// Whether the operands and the results in functions are of types that their instructions take and give.
pub(crate) fn check_operands(listing: &Listing, failed: &mut Failure) {
    for parts in &listing.parts.functions {
        for place in parts.start..parts.end {
            let instruction = listing.at(place);
            if let Some(what) = wrong(listing, &instruction) {
                failed.fail(instruction.malformed(what));
            }
        }
    }
}
