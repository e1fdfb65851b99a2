// The parts of a module (section 2.4): which instructions are names, declarations, functions.

use crate::error::{Failure, Malformed, SpirvError};
use crate::listing::Instruction;
use spirv_numbers::ops;
use std::alloc::Global;

/// The instructions of one function, by their places.
#[derive(Clone, Copy)]
pub struct FunctionParts {
    /// Its `OpFunction`.
    pub start: u32,
    /// Its `OpFunctionEnd`.
    pub end: u32,
}

/// The parts of a module, each by the places of its instructions, in order.
#[derive(Drop)]
pub struct Parts {
    /// What names ids and members.
    pub names: Vec<u32>,
    /// What decorates them.
    pub decorations: Vec<u32>,
    /// What says that a group's decorations are of others.
    pub groups: Vec<u32>,
    /// How entry points are executed.
    pub modes: Vec<u32>,
    /// Entry points.
    pub entry_points: Vec<u32>,
    /// Capabilities.
    pub capabilities: Vec<u32>,
    /// Types, constants, variables, and all else that stands outside of functions.
    pub declarations: Vec<u32>,
    /// Functions.
    pub functions: Vec<FunctionParts>,
}

impl Parts {
    // Takes an instruction outside of functions to its part.
    fn add(&mut self, opcode: u16, place: u32, failed: &mut Failure) {
        let part = match opcode {
            ops::NOP
            | ops::LINE
            | ops::NO_LINE
            | ops::SOURCE
            | ops::SOURCE_CONTINUED
            | ops::SOURCE_EXTENSION
            | ops::STRING
            | ops::MODULE_PROCESSED
            | ops::EXTENSION
            | ops::EXT_INST_IMPORT
            | ops::MEMORY_MODEL
            | ops::DECORATION_GROUP
            | ops::DECORATE_STRING
            | ops::MEMBER_DECORATE_STRING => return,
            ops::NAME | ops::MEMBER_NAME => &mut self.names,
            ops::DECORATE | ops::DECORATE_ID | ops::MEMBER_DECORATE => &mut self.decorations,
            ops::GROUP_DECORATE | ops::GROUP_MEMBER_DECORATE => &mut self.groups,
            ops::EXECUTION_MODE | ops::EXECUTION_MODE_ID => &mut self.modes,
            ops::ENTRY_POINT => &mut self.entry_points,
            ops::CAPABILITY => &mut self.capabilities,
            _ => &mut self.declarations,
        };
        failed.push(part, place);
    }

    // Takes all instructions to their parts.
    fn add_all(&mut self, instructions: &[Instruction], failed: &mut Failure) {
        let mut place = 0u32;
        // the place of the function that is open
        let mut open = None;
        for instruction in instructions {
            match (instruction.opcode, open) {
                (ops::FUNCTION, None) => open = Some(place),
                (ops::FUNCTION_END, Some(start)) => {
                    failed.push(&mut self.functions, FunctionParts { start, end: place });
                    open = None;
                }
                (ops::FUNCTION, Some(_)) | (ops::FUNCTION_END, None) => {
                    failed.fail(instruction.malformed(Malformed::Misplaced));
                }
                (_, Some(_)) => {}
                (number, None) => self.add(number, place, failed),
            }
            place = place.saturating_add(1);
        }
        if open.is_some() {
            failed.fail(SpirvError::malformed(Malformed::Unfinished, 0));
        }
    }
}

/// The parts of a module.
pub fn sort_out(alloc: Global, instructions: &[Instruction], failed: &mut Failure) -> Parts {
    let mut parts = Parts {
        names: Vec::new(alloc),
        decorations: Vec::new(alloc),
        groups: Vec::new(alloc),
        modes: Vec::new(alloc),
        entry_points: Vec::new(alloc),
        capabilities: Vec::new(alloc),
        declarations: Vec::new(alloc),
        functions: Vec::new(alloc),
    };
    parts.add_all(instructions, failed);
    parts
}
