// How variables and arguments are used.

use crate::chains::{Part, is_chain, need, part_at, pointee};
use crate::order::Order;
use crate::paths::Paths;
use spirv_numbers::{numbers, ops};
use spirv_steps::Blocks;
use spirv_words::{Failure, Feature, Instruction, Listing};
use std::alloc::Global;

/// How a variable or an argument is used.
#[derive(Clone, Copy, PartialEq, Eq)]
pub struct Use {
    /// It is sampled with a comparison.
    pub compared: bool,
    /// It is sampled without one.
    pub sampled: bool,
    /// Its texels are changed atomically.
    pub atomic: bool,
}

impl Use {
    /// No use.
    pub const NONE: Use = Use {
        compared: false,
        sampled: false,
        atomic: false,
    };
}

// What is known of an id.
#[derive(Clone, Copy)]
struct Known {
    // the variable or argument at its root, or 0
    root: u32,
    used: Use,
    // of a parameter: the variable or argument that every call passes; 0 for none, `DIFFERENT` where calls differ
    passed: u32,
    // whether it is a function that launches mesh workgroups
    emits: bool,
}

impl Known {
    // Nothing is known.
    const NOTHING: Known = Known {
        root: 0,
        used: Use::NONE,
        passed: 0,
        emits: false,
    };
}

// An argument of a call.
#[derive(Clone, Copy)]
struct Passed {
    // the index of the call
    call: u32,
    argument: u32,
    // the index of its parameter
    parameter: u32,
}

/// How the variables and arguments of a module are used.
#[derive(Drop)]
pub struct Uses {
    known: Vec<Known>,
    // the built-ins that access chains into blocks use, each as the bit of its number modulo 64
    touched: u64,
    /// The atomic parts.
    pub atomics: Paths,
    /// Whether functions need the invocation's index in its subgroup and the subgroup's size.
    pub numbered: bool,
    /// Whether functions need the fragment's position.
    pub placed: bool,
}

// More than one variable.
const DIFFERENT: u32 = u32::MAX;

// The most calls through which a variable is traced.
const MAX_CALLS: usize = 255;

/// An id of no module, for the variable of these two numbers.
pub const SUBGROUP_NUMBERS: u32 = 0;

/// An id of no module, for the variable of the fragment's position: an id of a module is below the bound, which is a word.
pub const FRAGMENT_PLACE: u32 = u32::MAX;

/// An id of no module, for the variable of the mesh workgroups that a task stage launches.
pub const MESH_TASKS: u32 = u32::MAX - 1;

/// An id of no module, for the variable of all mesh outputs.
pub const MESH_OUTPUTS: u32 = u32::MAX - 2;

/// The dimension of attachments (section 3.8).
pub const DIM_SUBPASS_DATA: u32 = 6;

// Operations on ballots that depend on the subgroup's size or on the invocation's index.
const INVERSE_BALLOT: u16 = 340;

const BALLOT_BIT_COUNT: u16 = 342;

const BALLOT_FIND_MSB: u16 = 344;

// The operation over the values of each cluster (section 3.29).
const CLUSTERED_REDUCE: u32 = 3;

// Whether the result has the same root variable as the first operand.
fn leads_on(opcode: u16) -> bool {
    let leads = matches!(
        opcode,
        ops::COPY_OBJECT | ops::LOAD | ops::IMAGE | ops::COMPOSITE_EXTRACT
    );
    leads || is_chain(opcode)
}

/// Whether the instruction changes or reads a value atomically.
pub fn is_atomic(opcode: u16) -> bool {
    matches!(
        opcode,
        ops::ATOMIC_LOAD..=ops::ATOMIC_XOR | ops::ATOMIC_F_ADD_EXT
    )
}

// Whether the instruction samples an image, and whether with a comparison.
fn samples(opcode: u16) -> Option<bool> {
    match opcode {
        ops::IMAGE_SAMPLE_IMPLICIT_LOD
        | ops::IMAGE_SAMPLE_EXPLICIT_LOD
        | ops::IMAGE_SAMPLE_PROJ_IMPLICIT_LOD
        | ops::IMAGE_SAMPLE_PROJ_EXPLICIT_LOD
        | ops::IMAGE_GATHER => Some(false),
        ops::IMAGE_SAMPLE_DREF_IMPLICIT_LOD
        | ops::IMAGE_SAMPLE_DREF_EXPLICIT_LOD
        | ops::IMAGE_SAMPLE_PROJ_DREF_IMPLICIT_LOD
        | ops::IMAGE_SAMPLE_PROJ_DREF_EXPLICIT_LOD
        | ops::IMAGE_DREF_GATHER => Some(true),
        _ => None,
    }
}

// Whether a subgroup operation needs the invocation's index or the subgroup's size.
fn is_numbered(listing: &Listing, instruction: &Instruction) -> bool {
    match instruction.opcode {
        INVERSE_BALLOT | BALLOT_BIT_COUNT..=BALLOT_FIND_MSB => true,
        ops::GROUP_NON_UNIFORM_I_ADD..=ops::GROUP_NON_UNIFORM_LOGICAL_XOR => {
            listing.operand(instruction, 1) == Some(CLUSTERED_REDUCE)
        }
        _ => false,
    }
}

// Whether the image read is an input attachment.
fn reads_attachment(listing: &Listing, read: &Instruction) -> bool {
    let Some(image) = listing.operand(read, 0) else {
        return false;
    };
    let ty = listing.defined(listing.defined(image).ty);
    ty.opcode == ops::TYPE_IMAGE && listing.operand(&ty, 1) == Some(DIM_SUBPASS_DATA)
}

// The built-in with which a member is decorated.
fn built_in(listing: &Listing, decoration: &Instruction) -> Option<u32> {
    // a group decorates no member
    let after = if decoration.opcode == ops::MEMBER_DECORATE {
        2
    } else {
        1
    };
    if listing.operand(decoration, after) == Some(numbers::DECORATION_BUILT_IN) {
        listing.operand(decoration, after + 1)
    } else {
        None
    }
}

// Whether it is a parameter that takes an image without a sampler.
fn takes_image(listing: &Listing, parameter: &Instruction) -> bool {
    if parameter.opcode != ops::FUNCTION_PARAMETER {
        return false;
    }
    let ty = match pointee(listing, parameter.ty) {
        Some(ty) => ty,
        None => parameter.ty,
    };
    listing.defined(ty).opcode == ops::TYPE_IMAGE
}

impl Uses {
    /// Collects the uses of all functions, callees first.
    pub fn of_module(
        alloc: Global,
        listing: &Listing,
        blocks: &Blocks,
        order: &Order,
        failed: &mut Failure,
    ) -> Uses {
        let mut uses = Uses {
            known: failed.table(alloc, Known::NOTHING, listing.bound()),
            touched: 0,
            atomics: Paths::new(alloc, listing, failed),
            numbered: false,
            placed: false,
        };
        let mut calls = Vec::new(alloc);
        uses.take_all(listing, blocks, order, &mut calls, failed);
        uses.pass_on(listing, &calls, failed);
        drop(calls);
        uses
    }

    // Collects the uses of all instructions, and the arguments of calls.
    fn take_all(
        &mut self,
        listing: &Listing,
        blocks: &Blocks,
        order: &Order,
        calls: &mut Vec<Passed>,
        failed: &mut Failure,
    ) {
        for number in &order.functions {
            if let Some(function) = blocks.functions.get(*number as usize) {
                for place in function.parts.start..function.parts.end {
                    self.take(listing, place, calls, failed);
                    if listing.at(place).opcode == ops::EMIT_MESH_TASKS_EXT {
                        self.set_emits(listing.at(function.parts.start).id);
                    }
                }
            }
        }
    }

    // Notes that a function launches mesh workgroups.
    fn set_emits(&mut self, function: u32) {
        if let Some(known) = self.known.get_mut(function as usize) {
            known.emits = true;
        }
    }

    // Propagates uses through calls, callers last: an image sampled with a comparison anywhere is a depth image wherever it is passed.
    fn pass_on(&mut self, listing: &Listing, calls: &[Passed], failed: &mut Failure) {
        for passed in calls.iter().rev() {
            let parameter = listing.at(passed.parameter);
            let compared = self.is_compared(passed.argument) && takes_image(listing, &parameter);
            let more = Use {
                compared,
                ..Use::NONE
            };
            self.add(parameter.id, more);
        }
        let mut mixed = u32::MAX;
        for passed in calls {
            let parameter = listing.at(passed.parameter).id;
            if self.of(parameter).compared && !self.is_compared(passed.argument) {
                mixed = mixed.min(passed.call);
            }
        }
        if mixed != u32::MAX {
            failed.fail(listing.at(mixed).unsupported_by(Feature::MixedComparison));
        }
    }

    // Whether the root of an id is sampled with a comparison.
    fn is_compared(&self, id: u32) -> bool {
        self.of(self.root(id)).compared
    }

    /// The variable or argument at the root of an id.
    pub fn root(&self, id: u32) -> u32 {
        match self.known(id).root {
            0 => id,
            root => root,
        }
    }

    /// The global variable that every call passes for a parameter, directly or through other functions.
    pub fn always_passed(&self, listing: &Listing, parameter: u32) -> Option<u32> {
        let mut at = parameter;
        for _ in 0..MAX_CALLS {
            match listing.defined(at).opcode {
                ops::FUNCTION_PARAMETER => at = self.known(at).passed,
                ops::VARIABLE => return Some(at),
                _ => return None,
            }
        }
        None
    }

    // What is known of an id.
    fn known(&self, id: u32) -> Known {
        let known = self.known.get(id as usize).copied();
        known.unwrap_or(Known::NOTHING)
    }

    /// How a variable or an argument is used.
    pub fn of(&self, id: u32) -> Use {
        self.known(id).used
    }

    /// Whether a block member with this built-in may be used.
    pub fn touches(&self, built_in: u32) -> bool {
        self.touched & (1u64 << (built_in % 64)) != 0
    }

    // Collects the uses of one instruction.
    fn take(
        &mut self,
        listing: &Listing,
        place: u32,
        calls: &mut Vec<Passed>,
        failed: &mut Failure,
    ) {
        let instruction = &listing.at(place);
        let opcode = instruction.opcode;
        self.numbered |= is_numbered(listing, instruction);
        self.placed |= opcode == ops::IMAGE_READ && reads_attachment(listing, instruction);
        if leads_on(opcode) {
            let root = self.root(need(listing, instruction, 0, failed));
            if let Some(known) = self.known.get_mut(instruction.id as usize) {
                known.root = root;
            }
        }
        if is_chain(opcode) {
            self.touch(listing, instruction, failed);
        } else if let Some(compared) = samples(opcode) {
            self.sample(listing, instruction, compared, failed);
        } else if opcode == ops::FUNCTION_CALL {
            self.call(listing, place, calls, failed);
        } else if is_atomic(opcode) {
            self.change(listing, instruction, failed);
        }
    }

    // Notes the block members that an access chain goes through.
    fn touch(&mut self, listing: &Listing, chain: &Instruction, failed: &mut Failure) {
        let base = need(listing, chain, 0, failed);
        let Some(mut ty) = pointee(listing, listing.defined(base).ty) else {
            return;
        };
        for index in listing.operands_from(chain, 1) {
            let part = failed.take(part_at(listing, ty, *index, chain), Part::NONE);
            ty = part.ty;
            if part.member.is_some() {
                for place in listing.decorations(part.from, part.member) {
                    if let Some(number) = built_in(listing, &listing.at(*place)) {
                        self.touched |= 1u64 << (number % 64);
                    }
                }
            }
        }
    }

    // Adds a use to the root of an id.
    fn add(&mut self, id: u32, more: Use) {
        let root = self.root(id);
        if let Some(known) = self.known.get_mut(root as usize) {
            known.used.compared |= more.compared;
            known.used.sampled |= more.sampled;
            known.used.atomic |= more.atomic;
        }
    }

    fn sample(
        &mut self,
        listing: &Listing,
        instruction: &Instruction,
        compared: bool,
        failed: &mut Failure,
    ) {
        let more = Use {
            compared,
            sampled: !compared,
            atomic: false,
        };
        let image = self.root(need(listing, instruction, 0, failed));
        let made = listing.defined(image);
        if made.opcode == ops::SAMPLED_IMAGE {
            self.add(need(listing, &made, 0, failed), more);
            self.add(need(listing, &made, 1, failed), more);
        } else {
            self.add(image, more);
        }
    }

    // Adds the callee's uses of its parameters to the arguments of a call; parameters follow its `OpFunction`.
    fn call(
        &mut self,
        listing: &Listing,
        place: u32,
        calls: &mut Vec<Passed>,
        failed: &mut Failure,
    ) {
        let call = listing.at(place);
        let callee = need(listing, &call, 0, failed);
        if self.known(callee).emits {
            // it ends the caller, too
            failed.fail(call.unsupported_by(Feature::EmitInCallee));
        }
        let mut at = listing.place_of(callee).unwrap_or(u32::MAX);
        for argument in listing.operands_from(&call, 1) {
            at = at.saturating_add(1);
            let passed = Passed {
                call: place,
                argument: *argument,
                parameter: at,
            };
            failed.push(calls, passed);
            let parameter = listing.at(at);
            if parameter.opcode == ops::FUNCTION_PARAMETER {
                if self.atomics.has(parameter.id) {
                    failed.fail(call.unsupported_by(Feature::AtomicArgument));
                }
                self.add(*argument, self.of(parameter.id));
                self.pass(parameter.id, *argument);
            }
        }
    }

    // Notes an argument of a call for a parameter.
    fn pass(&mut self, parameter: u32, argument: u32) {
        if let Some(known) = self.known.get_mut(parameter as usize) {
            let differs = known.passed != 0 && known.passed != argument;
            known.passed = if differs { DIFFERENT } else { argument };
        }
    }

    // Notes an atomic operation on a texel or on a part of a variable.
    fn change(&mut self, listing: &Listing, atomic: &Instruction, failed: &mut Failure) {
        let pointer = need(listing, atomic, 0, failed);
        let texel = listing.defined(pointer);
        if texel.opcode != ops::IMAGE_TEXEL_POINTER {
            let root = self.root(pointer);
            self.atomics.add(listing, pointer, root, atomic, failed);
            return;
        }
        let more = Use {
            compared: false,
            sampled: false,
            atomic: true,
        };
        self.add(need(listing, &texel, 0, failed), more);
    }
}
