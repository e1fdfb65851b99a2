// The blocks of functions (section 2.2.5).

use spirv_numbers::ops;
use spirv_words::{
    Failure, FunctionParts, Instruction, Listing, Malformed, as_word, number_at, set_number,
};
use std::alloc::Global;

/// A block, by the places of its instructions.
#[derive(Clone, Copy)]
pub struct Block {
    /// The id of its label.
    pub label: u32,
    /// Its first instruction after the label.
    pub first: u32,
    /// The instruction that says where its branches merge, if it has one.
    pub merge: Option<u32>,
    /// The instruction that ends it.
    pub end: u32,
}

impl Block {
    /// No block.
    pub const NONE: Block = Block {
        label: 0,
        first: 0,
        merge: None,
        end: 0,
    };
}

/// A function, with its blocks by their numbers.
#[derive(Clone, Copy)]
pub struct FunctionBlocks {
    /// Its instructions.
    pub parts: FunctionParts,
    /// Its first block.
    pub first: u32,
    /// The block after its last one.
    pub end: u32,
}

/// The blocks of all functions, numbered through.
#[derive(Drop)]
pub struct Blocks {
    /// The functions in the order of the module.
    pub functions: Vec<FunctionBlocks>,
    /// The blocks.
    pub blocks: Vec<Block>,
    // for each id the number of the block that it labels and one, or 0
    labelled: Vec<u32>,
}

// What ends a block.
static ENDS: [u16; 11] = [
    ops::BRANCH,
    ops::BRANCH_CONDITIONAL,
    ops::SWITCH,
    ops::KILL,
    ops::RETURN,
    ops::RETURN_VALUE,
    ops::UNREACHABLE,
    ops::TERMINATE_INVOCATION,
    ops::EMIT_MESH_TASKS_EXT,
    ops::IGNORE_INTERSECTION_KHR,
    ops::TERMINATE_RAY_KHR,
];

impl Blocks {
    /// The blocks of all functions.
    pub fn of_module(alloc: Global, listing: &Listing, failed: &mut Failure) -> Blocks {
        let labelled = failed.table(alloc, 0u32, listing.bound());
        let mut all = Blocks {
            functions: Vec::new(alloc),
            blocks: Vec::new(alloc),
            labelled,
        };
        for parts in &listing.parts.functions {
            let first = as_word(all.blocks.len());
            let mut open = None;
            for place in parts.start.saturating_add(1)..parts.end {
                open = all.take(open, &listing.at(place), place, failed);
            }
            if open.is_some() {
                failed.fail(listing.at(parts.end).malformed(Malformed::OpenBlock));
            }
            let function = FunctionBlocks {
                parts: *parts,
                first,
                end: as_word(all.blocks.len()),
            };
            failed.push(&mut all.functions, function);
        }
        all
    }

    // Takes one more instruction, inside of the block that is open or outside of blocks. Returns the block that is open after it.
    fn take(
        &mut self,
        open: Option<Block>,
        instruction: &Instruction,
        place: u32,
        failed: &mut Failure,
    ) -> Option<Block> {
        let what = match open {
            None => match instruction.opcode {
                ops::NOP | ops::LINE | ops::NO_LINE | ops::FUNCTION_PARAMETER => return None,
                ops::LABEL => {
                    let mut begun = Block::NONE;
                    begun.label = instruction.id;
                    begun.first = place.saturating_add(1);
                    return Some(begun);
                }
                _ => Malformed::Misplaced,
            },
            Some(mut block) => match instruction.opcode {
                ops::LABEL => Malformed::OpenBlock,
                ops::SELECTION_MERGE | ops::LOOP_MERGE => {
                    block.merge = Some(place);
                    return Some(block);
                }
                opcode if ENDS.contains(&opcode) => {
                    block.end = place;
                    failed.push(&mut self.blocks, block);
                    let number = as_word(self.blocks.len());
                    set_number(&mut self.labelled, block.label, number);
                    return None;
                }
                _ => return open,
            },
        };
        failed.fail(instruction.malformed(what));
        None
    }

    /// The number of the block with this label, if it is one of the function's.
    pub fn labelled(&self, function: &FunctionBlocks, label: u32) -> Option<u32> {
        match number_at(&self.labelled, label).checked_sub(1) {
            Some(number) if function.first <= number && number < function.end => Some(number),
            _ => None,
        }
    }

    /// The block with this number.
    pub fn get(&self, number: u32) -> Option<Block> {
        self.blocks.get(number as usize).copied()
    }
}
