// What has to be known of types before they are declared.

use spirv_flow::pointee;
use spirv_numbers::{numbers, ops};
use spirv_words::{Failure, Instruction, Listing, Malformed, SpirvError, Unsupported, text_length};
use std::alloc::Global;

// What is known of an id.
#[derive(Clone, Copy)]
struct Known {
    // an input or an output is of this type
    between: bool,
    // a variable that is an output is of this type, or of an array of it
    output: bool,
    // it is a block in a storage buffer, or an array of those, as older modules say it
    buffer_block: bool,
    // a fragment stage has it in its interface
    fragment: bool,
    // a stage of what a ray hits has it in its interface
    hit: bool,
    // a mesh stage has it in its interface
    mesh: bool,
    // a stage that is no mesh stage has it in its interface
    other: bool,
}

// Nothing is known.
const NOTHING: Known = Known {
    between: false,
    output: false,
    buffer_block: false,
    fragment: false,
    hit: false,
    mesh: false,
    other: false,
};

/// What has to be known of types before they are declared.
#[derive(Drop)]
pub struct Scan {
    known: Vec<Known>,
    /// Whether there is a task stage.
    pub has_tasks: bool,
}

impl Scan {
    /// Finds it in the declarations of a module, which have no decoration that is not translated.
    pub fn of_module(alloc: Global, listing: &Listing) -> Result<Scan, SpirvError> {
        let mut failed = Failure::NONE;
        refuse_decorations(listing, &mut failed);
        let mut scan = Scan {
            known: failed.table(alloc, NOTHING, listing.bound()),
            has_tasks: false,
        };
        for place in &listing.parts.entry_points {
            scan.take_entry(listing.operands(&listing.at(*place)));
        }
        for place in &listing.parts.declarations {
            scan.take(listing, &listing.at(*place));
        }
        failed.answer(scan)
    }

    fn at(&self, id: u32) -> Known {
        match self.known.get(id as usize) {
            Some(known) => *known,
            None => NOTHING,
        }
    }

    // The interface of an entry point, after its stage, its function and its name.
    fn take_entry(&mut self, operands: &[u32]) {
        let model = operands.first().copied().unwrap_or(u32::MAX);
        self.has_tasks |= model == numbers::MODEL_TASK_EXT;
        let rest = operands.get(2..).unwrap_or(&[]);
        for id in rest.get(text_length(rest)..).unwrap_or(&[]) {
            if let Some(known) = self.known.get_mut(*id as usize) {
                known.fragment |= model == numbers::MODEL_FRAGMENT;
                known.hit |= matches!(
                    model,
                    numbers::MODEL_ANY_HIT_KHR | numbers::MODEL_CLOSEST_HIT_KHR
                );
                known.mesh |= model == numbers::MODEL_MESH_EXT;
                known.other |= model != numbers::MODEL_MESH_EXT;
            }
        }
    }

    /// Whether a stage of what a ray hits has the variable in its interface.
    pub fn is_of_hit(&self, id: u32) -> bool {
        self.at(id).hit
    }

    /// Whether a mesh stage has the variable in its interface.
    pub fn is_of_mesh(&self, id: u32) -> bool {
        self.at(id).mesh
    }

    /// Whether a stage that is no mesh stage has the variable in its interface.
    pub fn is_of_other(&self, id: u32) -> bool {
        self.at(id).other
    }

    /// Whether a fragment stage has the variable in its interface.
    pub fn is_of_fragment(&self, id: u32) -> bool {
        self.at(id).fragment
    }

    /// Whether an input or an output is of this type.
    pub fn is_between(&self, id: u32) -> bool {
        self.at(id).between
    }

    /// Whether a variable that is an output is of this type, or of an array of it.
    pub fn is_output(&self, id: u32) -> bool {
        self.at(id).output
    }

    /// Whether it is a block in a storage buffer, or an array of those, as older modules say it.
    pub fn is_buffer_block(&self, id: u32) -> bool {
        self.at(id).buffer_block
    }

    fn take(&mut self, listing: &Listing, instruction: &Instruction) {
        let first = listing.operand(instruction, 0).unwrap_or(u32::MAX);
        match instruction.opcode {
            ops::TYPE_POINTER => {
                if first == numbers::CLASS_INPUT || first == numbers::CLASS_OUTPUT {
                    let to = listing.operand(instruction, 1).unwrap_or(0);
                    if let Some(known) = self.known.get_mut(to as usize) {
                        known.between = true;
                    }
                }
            }
            ops::VARIABLE if first == numbers::CLASS_OUTPUT => {
                let to = pointee(listing, instruction.ty).unwrap_or(0);
                self.set_output(to);
                let ty = listing.defined(to);
                if ty.opcode == ops::TYPE_ARRAY {
                    self.set_output(listing.operand(&ty, 0).unwrap_or(0));
                }
            }
            ops::TYPE_STRUCT => {
                let is_block = is_buffer_block(listing, instruction.id);
                self.set_buffer_block(instruction.id, is_block);
            }
            ops::TYPE_ARRAY | ops::TYPE_RUNTIME_ARRAY => {
                self.set_buffer_block(instruction.id, self.is_buffer_block(first));
            }
            _ => {}
        }
    }

    fn set_output(&mut self, id: u32) {
        if let Some(known) = self.known.get_mut(id as usize) {
            known.output = true;
        }
    }

    fn set_buffer_block(&mut self, id: u32, is_block: bool) {
        if let Some(known) = self.known.get_mut(id as usize) {
            known.buffer_block = is_block;
        }
    }
}

// Whether the struct is said to be a block in a storage buffer.
fn is_buffer_block(listing: &Listing, id: u32) -> bool {
    for place in listing.decorations(id, None) {
        if listing.operand(&listing.at(*place), 1) == Some(numbers::DECORATION_BUFFER_BLOCK) {
            return true;
        }
    }
    false
}

// Whether a decoration is not translated.
fn is_refused(number: u32) -> bool {
    matches!(
        number,
        numbers::DECORATION_XFB_BUFFER | numbers::DECORATION_STREAM | numbers::DECORATION_PATCH
    )
}

// Refuses decorations that are not translated.
fn refuse_decorations(listing: &Listing, failed: &mut Failure) {
    for place in &listing.parts.decorations {
        let instruction = listing.at(*place);
        let after = if instruction.opcode == ops::MEMBER_DECORATE {
            2
        } else {
            1
        };
        match listing.operand(&instruction, after) {
            Some(number) if is_refused(number) => {
                failed.fail(instruction.unsupported_as(Unsupported::Decoration(number)));
            }
            Some(_) => {}
            None => failed.fail(instruction.malformed(Malformed::MissingOperand)),
        }
    }
}
