// How buffers are laid out (section 2.16.2, "shader validation", and the rules for shader interfaces of Vulkan).

use spirv_flow::pointee;
use spirv_numbers::{numbers, ops};
use spirv_words::{Failure, Instruction, Listing, Malformed};
use std::alloc::Global;

// What is known of a type while declarations are gone through from the last one to the first.
#[derive(Clone, Copy)]
struct Known {
    // it is a buffer, or an array of those
    buffer: bool,
    // it lies in a buffer
    inside: bool,
    // it is a matrix, or an array of those
    matrix: bool,
}

// Nothing is known.
const NOTHING: Known = Known {
    buffer: false,
    inside: false,
    matrix: false,
};

// What decorations say of how a type or a member lies in memory.
#[derive(Clone, Copy)]
struct Said {
    block: bool,
    offset: bool,
    array_stride: bool,
    matrix_stride: bool,
    majorness: bool,
}

// What is said of an id, or of a member of its struct.
fn said_of(listing: &Listing, id: u32, member: Option<u32>) -> Said {
    let mut said = Said {
        block: false,
        offset: false,
        array_stride: false,
        matrix_stride: false,
        majorness: false,
    };
    for place in listing.decorations(id, member) {
        let instruction = listing.at(*place);
        // a group decorates no member
        let after = if instruction.opcode == ops::MEMBER_DECORATE {
            2
        } else {
            1
        };
        match listing.operand(&instruction, after).unwrap_or(u32::MAX) {
            numbers::DECORATION_BLOCK | numbers::DECORATION_BUFFER_BLOCK => said.block = true,
            numbers::DECORATION_OFFSET => said.offset = true,
            numbers::DECORATION_ARRAY_STRIDE => said.array_stride = true,
            numbers::DECORATION_MATRIX_STRIDE => said.matrix_stride = true,
            numbers::DECORATION_ROW_MAJOR | numbers::DECORATION_COL_MAJOR => said.majorness = true,
            _ => {}
        }
    }
    said
}

// Whether a variable of this storage class is a buffer.
fn is_buffer(class: u32) -> bool {
    matches!(
        class,
        numbers::CLASS_UNIFORM | numbers::CLASS_STORAGE_BUFFER | numbers::CLASS_PUSH_CONSTANT
    )
}

// What is known of this type.
fn known_of(known: &[Known], id: u32) -> Known {
    match known.get(id as usize) {
        Some(known) => *known,
        None => NOTHING,
    }
}

// A type is a buffer.
fn set_buffer(known: &mut [Known], id: u32) {
    if let Some(known) = known.get_mut(id as usize) {
        known.buffer = true;
    }
}

// A type lies in a buffer.
fn set_inside(known: &mut [Known], id: u32) {
    if let Some(known) = known.get_mut(id as usize) {
        known.inside = true;
    }
}

// Writes down whether a type is a matrix, or an array of those.
fn find_matrix(listing: &Listing, instruction: &Instruction, known: &mut [Known]) {
    let is_matrix = match instruction.opcode {
        ops::TYPE_MATRIX => true,
        ops::TYPE_ARRAY | ops::TYPE_RUNTIME_ARRAY => {
            known_of(known, listing.operand(instruction, 0).unwrap_or(0)).matrix
        }
        _ => false,
    };
    if let Some(known) = known.get_mut(instruction.id as usize) {
        known.matrix = is_matrix;
    }
}

/// Whether each buffer is a block, whose members say where they begin, arrays in it how far it is from element to element, and
/// matrices how far it is from column to column, or from row to row.
pub(crate) fn check_layouts(alloc: Global, listing: &Listing, failed: &mut Failure) {
    let mut known = failed.table(alloc, NOTHING, listing.bound());
    for place in &listing.parts.declarations {
        find_matrix(listing, &listing.at(*place), &mut known);
    }
    // what a type is made of is declared before it
    for place in listing.parts.declarations.iter().rev() {
        check_one(listing, &listing.at(*place), &mut known, failed);
    }
}

// Whether a declaration keeps the rules, as what comes after it uses it.
fn check_one(
    listing: &Listing,
    instruction: &Instruction,
    known: &mut [Known],
    failed: &mut Failure,
) {
    let own = known_of(known, instruction.id);
    match instruction.opcode {
        ops::VARIABLE => {
            if is_buffer(listing.operand(instruction, 0).unwrap_or(u32::MAX)) {
                set_buffer(known, pointee(listing, instruction.ty).unwrap_or(0));
            }
        }
        ops::TYPE_ARRAY | ops::TYPE_RUNTIME_ARRAY => {
            check_array(listing, instruction, own, known, failed);
        }
        ops::TYPE_STRUCT => check_struct(listing, instruction, own, known, failed),
        _ if own.buffer => failed.fail(instruction.malformed(Malformed::NotLaidOut)),
        _ => {}
    }
}

// The same of an array of buffers, or in a buffer.
fn check_array(
    listing: &Listing,
    instruction: &Instruction,
    own: Known,
    known: &mut [Known],
    failed: &mut Failure,
) {
    let element = listing.operand(instruction, 0).unwrap_or(0);
    if own.buffer {
        set_buffer(known, element);
    }
    if own.inside {
        set_inside(known, element);
        if !said_of(listing, instruction.id, None).array_stride {
            failed.fail(instruction.malformed(Malformed::NoArrayStride));
        }
    }
}

// The same of a struct that is a buffer, or lies in one.
fn check_struct(
    listing: &Listing,
    instruction: &Instruction,
    own: Known,
    known: &mut [Known],
    failed: &mut Failure,
) {
    if own.buffer && !said_of(listing, instruction.id, None).block {
        failed.fail(instruction.malformed(Malformed::NotLaidOut));
    }
    if !own.buffer && !own.inside {
        return;
    }
    let mut place = 0u32;
    for member in listing.operands(instruction) {
        set_inside(known, *member);
        let said = said_of(listing, instruction.id, Some(place));
        let of_matrix = known_of(known, *member).matrix;
        check_member(instruction, said, of_matrix, failed);
        place = place.saturating_add(1);
    }
}

// Whether a member says where it begins, and how the matrices in it lie.
fn check_member(instruction: &Instruction, said: Said, of_matrix: bool, failed: &mut Failure) {
    if !said.offset {
        failed.fail(instruction.malformed(Malformed::NoOffset));
    }
    if of_matrix && !said.matrix_stride {
        failed.fail(instruction.malformed(Malformed::NoMatrixStride));
    }
    if of_matrix && !said.majorness {
        failed.fail(instruction.malformed(Malformed::NoMajorness));
    }
}
