// Debug lines of a module.

use spirv_flow::constant_word;
use spirv_numbers::ops;
use spirv_words::{Instruction, Listing, starts_text};

/// A debug line: the id of its file's name, and its number, counted from 1.
#[derive(Clone, Copy)]
pub(crate) struct Said {
    /// The id of an `OpString`.
    pub file: u32,
    /// The number of the line.
    pub line: u32,
}

// The instructions of NonSemantic.Shader.DebugInfo.100 that set lines.
const DEBUG_GLOBAL_VARIABLE: u32 = 18;

const DEBUG_SOURCE: u32 = 35;

const DEBUG_LINE: u32 = 103;

const DEBUG_NO_LINE: u32 = 104;

// The number of an instruction of the debug information set.
fn debug_number(listing: &Listing, instruction: &Instruction) -> Option<u32> {
    if instruction.opcode != ops::EXT_INST {
        return None;
    }
    let set = listing.defined(listing.operand(instruction, 0)?);
    if starts_text(
        listing.operands(&set),
        "NonSemantic.Shader.DebugInfo",
        false,
    ) {
        listing.operand(instruction, 1)
    } else {
        None
    }
}

// The debug line at these operand indexes.
fn said_at(
    listing: &Listing,
    instruction: &Instruction,
    source: usize,
    line: usize,
) -> Option<Said> {
    let of = listing.defined(listing.operand(instruction, source)?);
    if debug_number(listing, &of) != Some(DEBUG_SOURCE) {
        return None;
    }
    Some(Said {
        file: listing.operand(&of, 2)?,
        line: constant_word(listing, listing.operand(instruction, line)?)?,
    })
}

// Whether the instruction ends a block, and so the scope of the current line.
fn ends_block(opcode: u16) -> bool {
    matches!(
        opcode,
        ops::BRANCH..=ops::UNREACHABLE | ops::TERMINATE_INVOCATION | ops::FUNCTION_END
    )
}

// The current line after an instruction, given the one before it.
fn after(listing: &Listing, instruction: &Instruction, before: Option<Said>) -> Option<Said> {
    match instruction.opcode {
        ops::LINE => Some(Said {
            file: listing.operand(instruction, 0)?,
            line: listing.operand(instruction, 1)?,
        }),
        ops::NO_LINE => None,
        ops::EXT_INST => match debug_number(listing, instruction) {
            Some(DEBUG_LINE) => said_at(listing, instruction, 2, 3),
            Some(DEBUG_NO_LINE) => None,
            _ => before,
        },
        opcode if ends_block(opcode) => None,
        _ => before,
    }
}

// The line of a global variable, from its own debug information.
fn of_variable(listing: &Listing, id: u32) -> Option<Said> {
    for place in &listing.parts.declarations {
        let instruction = listing.at(*place);
        let is_said = debug_number(listing, &instruction) == Some(DEBUG_GLOBAL_VARIABLE)
            && listing.operand(&instruction, 9) == Some(id);
        if is_said {
            return said_at(listing, &instruction, 4, 5);
        }
    }
    None
}

/// The source line of the instruction that begins at this word: the current line of its block, or for a global variable that of its debug
/// information.
pub(crate) fn said_of(listing: &Listing, word: u32) -> Option<Said> {
    let mut said = None;
    for instruction in &listing.instructions {
        if instruction.start >= word {
            if said.is_none() && instruction.opcode == ops::VARIABLE && instruction.start == word {
                return of_variable(listing, instruction.id);
            }
            return said;
        }
        said = after(listing, instruction, said);
    }
    None
}
