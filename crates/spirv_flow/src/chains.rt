// The steps of access chains.

use spirv_numbers::ops;
use spirv_words::{
    Failure, Feature, Instruction, Listing, Malformed, SpirvError, Unsupported, starts_text,
};

/// A step from a type into one of its parts.
#[derive(Clone, Copy)]
pub struct Part {
    /// The type from which it goes.
    pub from: u32,
    /// Which member of a struct it is; `None` for an element of anything else.
    pub member: Option<u32>,
    /// The type of the part.
    pub ty: u32,
}

impl Part {
    // The error that there is no such part.
    pub(crate) const NONE: Part = Part {
        from: 0,
        member: None,
        ty: 0,
    };
}

/// The operand at this index; where it is missing, 0.
pub(crate) fn need(
    listing: &Listing,
    instruction: &Instruction,
    place: usize,
    failed: &mut Failure,
) -> u32 {
    match listing.operand(instruction, place) {
        Some(word) => word,
        None => {
            failed.fail(instruction.malformed(Malformed::MissingOperand));
            0
        }
    }
}

/// The low 32 bits of a constant integer.
pub fn constant_word(listing: &Listing, id: u32) -> Option<u32> {
    let constant = listing.defined(id);
    match constant.opcode {
        ops::CONSTANT | ops::SPEC_CONSTANT => listing.operand(&constant, 0),
        ops::CONSTANT_NULL => Some(0),
        _ => None,
    }
}

/// The type that a pointer's type points to.
pub fn pointee(listing: &Listing, ty: u32) -> Option<u32> {
    let pointer = listing.defined(ty);
    if pointer.opcode == ops::TYPE_POINTER {
        listing.operand(&pointer, 1)
    } else {
        None
    }
}

/// The part of a type that this index leads to.
pub fn part_at(
    listing: &Listing,
    from: u32,
    index: u32,
    chain: &Instruction,
) -> Result<Part, SpirvError> {
    let Some(ty) = listing.definition(from) else {
        return Err(chain.malformed(Malformed::NoType));
    };
    let (member, missing) = match (ty.opcode, constant_word(listing, index)) {
        (ops::TYPE_STRUCT, Some(member)) => (Some(member), chain.malformed(Malformed::Member)),
        (ops::TYPE_STRUCT, None) => return Err(chain.unsupported_by(Feature::DynamicMember)),
        (ops::TYPE_ARRAY | ops::TYPE_RUNTIME_ARRAY | ops::TYPE_VECTOR | ops::TYPE_MATRIX, _) => (
            None,
            ty.malformed(Malformed::MissingOperand),
        ),
        (opcode, _) => return Err(chain.unsupported_as(Unsupported::ChainInto(opcode))),
    };
    match listing.operand(&ty, member.unwrap_or(0) as usize) {
        Some(ty) => Ok(Part { from, member, ty }),
        None => Err(missing),
    }
}

/// Whether the instruction makes a pointer from another one.
pub fn is_chain(opcode: u16) -> bool {
    matches!(opcode, ops::ACCESS_CHAIN | ops::IN_BOUNDS_ACCESS_CHAIN)
}

/// Whether an extended instruction is debug information.
pub fn is_debug(listing: &Listing, instruction: &Instruction) -> bool {
    let Some(id) = listing.operand(instruction, 0) else {
        return false;
    };
    let name = listing.operands(&listing.defined(id));
    starts_text(name, "NonSemantic", false) || starts_text(name, "OpenCL.DebugInfo", false)
}
