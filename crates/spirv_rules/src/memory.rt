// Loads, stores, pointers and what is handed on as it is (sections 3.52.8 and 3.52.9).

use crate::kinds::{Class, Of, Wrong, is_of, kind_at, kind_of, type_at};
use spirv_flow::{part_at, pointee};
use spirv_numbers::ops;
use spirv_words::{Instruction, Listing, Malformed};

// The type that the operand at this index points to.
fn pointee_at(listing: &Listing, instruction: &Instruction, place: usize) -> Option<u32> {
    pointee(listing, type_at(listing, instruction, place))
}

// A result that is not of this type, where there is one.
fn unlike(instruction: &Instruction, ty: Option<u32>) -> Wrong {
    match ty {
        Some(ty) if ty != instruction.ty => Some(Malformed::ResultType),
        _ => None,
    }
}

// What is wrong with a scalar or a vector that is stored.
fn wrong_store(listing: &Listing, instruction: &Instruction) -> Wrong {
    let wanted = pointee_at(listing, instruction, 0)?;
    let stored = type_at(listing, instruction, 1);
    match (kind_of(listing, wanted), kind_of(listing, stored)) {
        (Of::Kind(_), Of::Kind(_)) if wanted != stored => Some(Malformed::OperandType),
        _ => None,
    }
}

// The type at the end of an access chain.
fn end_of(listing: &Listing, instruction: &Instruction) -> Option<u32> {
    let mut at = pointee_at(listing, instruction, 0)?;
    for index in listing.operands_from(instruction, 1) {
        match part_at(listing, at, *index, instruction) {
            Ok(part) => at = part.ty,
            Err(_) => return None,
        }
    }
    Some(at)
}

// What is wrong with an access chain: it gives a pointer to what it leads to.
fn wrong_chain(listing: &Listing, instruction: &Instruction) -> Wrong {
    let end = end_of(listing, instruction)?;
    match pointee(listing, instruction.ty) {
        Some(given) if given == end => None,
        _ => Some(Malformed::ResultType),
    }
}

// What is wrong with a choice between two values: both are of the type that it gives, and the condition is one truth value, or one
// for each component.
fn wrong_choice(listing: &Listing, instruction: &Instruction) -> Wrong {
    for place in 1..3 {
        let ty = type_at(listing, instruction, place);
        if ty != 0 && ty != instruction.ty {
            return Some(Malformed::OperandType);
        }
    }
    let count = match (
        kind_at(listing, instruction, 0),
        kind_of(listing, instruction.ty),
    ) {
        (Of::Kind(condition), Of::Kind(chosen)) if condition.count > 1 => Some(chosen.count),
        _ => None,
    };
    if is_of(kind_at(listing, instruction, 0), Class::Bool, None, count) {
        None
    } else {
        Some(Malformed::OperandType)
    }
}

// The type of what the operand at this index is or gives, where it is defined.
fn typed(listing: &Listing, instruction: &Instruction, place: usize) -> Option<u32> {
    match type_at(listing, instruction, place) {
        0 => None,
        ty => Some(ty),
    }
}

/// What is wrong with an instruction that reads or writes memory, makes a pointer, or hands a value on.
pub(crate) fn wrong_memory(listing: &Listing, instruction: &Instruction) -> Wrong {
    match instruction.opcode {
        ops::LOAD => unlike(instruction, pointee_at(listing, instruction, 0)),
        ops::STORE => wrong_store(listing, instruction),
        ops::ACCESS_CHAIN | ops::IN_BOUNDS_ACCESS_CHAIN => wrong_chain(listing, instruction),
        ops::COPY_OBJECT | ops::FUNCTION_CALL => unlike(
            instruction,
            typed(listing, instruction, 0),
        ),
        ops::SELECT => wrong_choice(listing, instruction),
        _ => None,
    }
}
