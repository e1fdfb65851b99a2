// What each id is defined by, and what is said of it.

use crate::error::{Failure, Malformed, SpirvError};
use crate::parts::{Parts, sort_out};
use crate::pieces::{HEADER, Piece, cut};
use crate::text::read_text;
use crate::unsupported::{Feature, Unsupported};
use spirv_numbers::{Groups, Results, ops, read_words, results_of};
use std::alloc::Global;

// How many ids there may be for each word, so that a table of ids is linear in the words.
const IDS_A_WORD: usize = 16;

// How many decorations groups may make for each word.
const DECORATIONS_A_WORD: usize = 16;

// How many decorations an id or a member may have, and a function modes, since they are looked through at each use.
const DECORATIONS_AN_ID: usize = 32;

/// An instruction. The places of words are counted from 0.
#[derive(Clone, Copy)]
pub struct Instruction {
    /// The opcode.
    pub opcode: u16,
    /// The id of the result's type, or 0 where it has none.
    pub ty: u32,
    /// The id of the result, or 0 where it has none.
    pub id: u32,
    /// Its first word.
    pub start: u32,
    /// Its first operand, after the results.
    pub first: u32,
    /// The word after its last one.
    pub end: u32,
}

impl Instruction {
    /// No instruction.
    pub const NONE: Instruction = Instruction {
        opcode: 0,
        ty: 0,
        id: 0,
        start: 0,
        first: 0,
        end: 0,
    };

    /// The error that this is not translated.
    pub fn unsupported(&self) -> SpirvError {
        self.unsupported_as(Unsupported::Instruction(self.opcode))
    }

    /// What this says of it is not translated.
    pub fn unsupported_as(&self, what: Unsupported) -> SpirvError {
        SpirvError::unsupported(what, self.start)
    }

    /// This of it is not translated.
    pub fn unsupported_by(&self, feature: Feature) -> SpirvError {
        SpirvError::untranslated(feature, self.start)
    }

    /// It is no SPIR-V.
    pub fn malformed(&self, what: Malformed) -> SpirvError {
        SpirvError::malformed(what, self.start)
    }
}

/// A module whose words are sorted out. Ids index its tables, so that each is below [`Listing::bound`].
pub struct Listing {
    /// The words, the header included.
    pub words: Vec<u32>,
    /// The instructions in order.
    pub instructions: Vec<Instruction>,
    /// The parts of the module.
    pub parts: Parts,
    // for each id the place of the instruction that defines it and one, or 0
    defined: Vec<u32>,
    // for each instruction the first of its slots: one for its id, one for each of a struct's members
    slots: Vec<u32>,
    // for each slot the word where its name begins, or 0
    names: Vec<u32>,
    // for each slot the instructions that decorate it
    decorations: Groups,
    // for each id the instructions that say how it is executed, of an entry point's function
    modes: Groups,
}

// Written out, so that a drop anywhere is a call into this crate.
impl Drop for Listing {
    fn drop(self) {
        let Listing {
            words: _words,
            instructions: _instructions,
            parts: _parts,
            defined: _defined,
            slots: _slots,
            names: _names,
            decorations: _decorations,
            modes: _modes,
        } = self;
    }
}

/// The module that the bytes are.
pub fn list(alloc: Global, bytes: &[u8]) -> Result<Listing, SpirvError> {
    let words = match read_words(alloc, bytes) {
        Ok(words) => words,
        Err(error) => return Err(SpirvError::from(error)),
    };
    let pieces = match cut(alloc, &words) {
        Ok(pieces) => pieces,
        Err(error) => {
            drop(words);
            return Err(error);
        }
    };
    let mut failed = Failure::NONE;
    let mut instructions = failed.list(alloc, pieces.len());
    read_instructions(&words, &pieces, &mut instructions, &mut failed);
    drop(pieces);
    let defined = define(alloc, &words, &instructions, &mut failed);
    let slots = number_slots(alloc, &instructions, &mut failed);
    let parts = sort_out(alloc, &instructions, &mut failed);
    let mut listing = Listing {
        words,
        instructions,
        parts,
        defined,
        slots,
        names: Vec::new(alloc),
        decorations: Groups::none(alloc),
        modes: Groups::none(alloc),
    };
    listing.find_said(alloc, &mut failed);
    failed.answer(listing)
}

/// The number at this place; 0 where there is none.
pub fn number_at(numbers: &[u32], place: u32) -> u32 {
    numbers.get(place as usize).copied().unwrap_or(0)
}

/// Puts a number at this place, if there is one.
pub fn set_number(numbers: &mut [u32], place: u32, number: u32) {
    if let Some(old) = numbers.get_mut(place as usize) {
        *old = number;
    }
}

/// A place or a count as a word; the greatest word where it is none.
pub fn as_word(place: usize) -> u32 {
    u32::try_from(place).unwrap_or(u32::MAX)
}

// All instructions, one after the other.
fn read_instructions(
    words: &[u32],
    pieces: &[Piece],
    all: &mut Vec<Instruction>,
    failed: &mut Failure,
) {
    for piece in pieces {
        let instruction = instruction_of(words, piece, failed);
        failed.push(all, instruction);
    }
}

// The instruction of these words.
fn instruction_of(words: &[u32], piece: &Piece, failed: &mut Failure) -> Instruction {
    let start = as_word(piece.start);
    let end = start.saturating_add(as_word(piece.len));
    let (ty, id, first) = match results_of(piece.opcode) {
        Results::Nothing => (0, 0, 1),
        Results::Alone => (0, number_at(words, start.saturating_add(1)), 2),
        Results::Typed => (
            number_at(words, start.saturating_add(1)),
            number_at(words, start.saturating_add(2)),
            3,
        ),
    };
    let first = start.saturating_add(first);
    if end < first {
        failed.fail(SpirvError::malformed(Malformed::MissingOperand, start));
    }
    Instruction {
        opcode: piece.opcode,
        ty,
        id,
        start,
        first,
        end,
    }
}

// For each id the instruction that defines it.
fn define(
    alloc: Global,
    words: &[u32],
    instructions: &[Instruction],
    failed: &mut Failure,
) -> Vec<u32> {
    // the fourth word is the bound (section 2.3)
    let bound = number_at(words, 3);
    let most = words.len().saturating_mul(IDS_A_WORD);
    let mut defined = failed.table(alloc, 0u32, most.min(bound as usize));
    let mut place = 0u32;
    for instruction in instructions {
        place = place.saturating_add(1);
        if results_of(instruction.opcode) != Results::Nothing {
            define_one(&mut defined, instruction, bound, place, failed);
        }
    }
    defined
}

// Writes down that this id is defined by the instruction at `place`, counted from 1.
fn define_one(
    defined: &mut [u32],
    instruction: &Instruction,
    bound: u32,
    place: u32,
    failed: &mut Failure,
) {
    if instruction.id == 0 || instruction.id >= bound {
        failed.fail(instruction.malformed(Malformed::IdBound));
    }
    match defined.get_mut(instruction.id as usize) {
        Some(slot) if *slot == 0 => *slot = place,
        Some(_) => failed.fail(instruction.malformed(Malformed::DefinedTwice)),
        None => failed.fail(instruction.unsupported_by(Feature::LargeId)),
    }
}

// For each instruction the first of its slots: one for its result, one for each of a struct's members.
fn number_slots(alloc: Global, instructions: &[Instruction], failed: &mut Failure) -> Vec<u32> {
    let mut slots = failed.list(alloc, instructions.len().saturating_add(1));
    let mut next = 0u32;
    for instruction in instructions {
        failed.push(&mut slots, next);
        if instruction.id != 0 {
            next = next.saturating_add(1);
        }
        if instruction.opcode == ops::TYPE_STRUCT {
            next = next.saturating_add(instruction.end.saturating_sub(instruction.first));
        }
    }
    failed.push(&mut slots, next);
    slots
}

impl Listing {
    // Finds what is said of ids.
    fn find_said(&mut self, alloc: Global, failed: &mut Failure) {
        self.names = self.find_names(alloc, failed);
        self.decorations = self.find_decorations(alloc, failed);
        self.modes = self.find_modes(alloc, failed);
    }

    // The slot of an id, or of a member of its struct.
    fn slot(&self, id: u32, member: Option<u32>) -> Option<u32> {
        let Some(place) = self.place_of(id) else {
            return None;
        };
        let first = number_at(&self.slots, place);
        let slot = match member {
            None => first,
            Some(member) => first.saturating_add(member).saturating_add(1),
        };
        if slot < number_at(&self.slots, place.saturating_add(1)) {
            Some(slot)
        } else {
            None
        }
    }

    // How many slots there are.
    fn count_slots(&self) -> usize {
        self.slots.last().copied().unwrap_or(0) as usize
    }

    // The slot of the id that is this word, or of a member where the word after it counts.
    fn slot_at(&self, word: u32, of_member: bool) -> Option<u32> {
        let member = if of_member {
            Some(number_at(&self.words, word.saturating_add(1)))
        } else {
            None
        };
        self.slot(number_at(&self.words, word), member)
    }

    // For each slot the word where its name begins.
    fn find_names(&self, alloc: Global, failed: &mut Failure) -> Vec<u32> {
        let mut names = failed.table(alloc, 0u32, self.count_slots());
        for place in &self.parts.names {
            let instruction = self.at(*place);
            let of_member = instruction.opcode == ops::MEMBER_NAME;
            let slot = self.slot_at(instruction.first, of_member);
            let name = instruction
                .first
                .saturating_add(if of_member { 2 } else { 1 });
            set_number(&mut names, slot.unwrap_or(u32::MAX), name);
        }
        names
    }

    // For each slot the instructions that decorate it, itself or by a group.
    fn find_decorations(&self, alloc: Global, failed: &mut Failure) -> Groups {
        let mut pairs = Vec::new(alloc);
        for place in &self.parts.decorations {
            let instruction = self.at(*place);
            let of_member = instruction.opcode == ops::MEMBER_DECORATE;
            if let Some(slot) = self.slot_at(instruction.first, of_member) {
                failed.push(&mut pairs, (slot, *place));
            }
        }
        if !self.parts.groups.is_empty() {
            let own = failed.groups(alloc, self.count_slots(), &pairs);
            self.add_groups(&own, &mut pairs, failed);
            drop(own);
        }
        self.grouped(alloc, self.count_slots(), pairs, failed)
    }

    // The instructions of each slot or id, which may have so many.
    fn grouped(
        &self,
        alloc: Global,
        count: usize,
        pairs: Vec<(u32, u32)>,
        failed: &mut Failure,
    ) -> Groups {
        let found = failed.groups(alloc, count, &pairs);
        drop(pairs);
        for place in 0..count {
            if let Some(place) = found.of(place).get(DECORATIONS_AN_ID) {
                failed.fail(self.at(*place).unsupported_by(Feature::ManyDecorations));
            }
        }
        found
    }

    // Adds each slot that a group decorates.
    fn add_groups(&self, own: &Groups, pairs: &mut Vec<(u32, u32)>, failed: &mut Failure) {
        for place in &self.parts.groups {
            let instruction = self.at(*place);
            match self.slot_at(instruction.first, false) {
                Some(group) => {
                    self.add_group(&instruction, own.of(group as usize), pairs, failed);
                }
                None => failed.fail(instruction.malformed(Malformed::Undefined)),
            }
        }
    }

    // Adds what a group's decorations say of others.
    fn add_group(
        &self,
        instruction: &Instruction,
        decorations: &[u32],
        pairs: &mut Vec<(u32, u32)>,
        failed: &mut Failure,
    ) {
        let of_member = instruction.opcode == ops::GROUP_MEMBER_DECORATE;
        let most = self.words.len().saturating_mul(DECORATIONS_A_WORD);
        for target in 1..instruction.end.saturating_sub(instruction.first) {
            // a member is named by the word after its struct
            if of_member && target % 2 == 0 {
                continue;
            }
            let word = instruction.first.saturating_add(target);
            if let Some(slot) = self.slot_at(word, of_member) {
                if failed.first.is_some() || pairs.len().saturating_add(decorations.len()) > most {
                    failed.fail(instruction.unsupported_by(Feature::LargeGroups));
                    return;
                }
                for place in decorations {
                    failed.push(pairs, (slot, *place));
                }
            }
        }
    }

    // For each id the instructions that say how its function is executed.
    fn find_modes(&self, alloc: Global, failed: &mut Failure) -> Groups {
        let mut pairs = failed.list(alloc, self.parts.modes.len());
        for place in &self.parts.modes {
            let id = number_at(&self.words, self.at(*place).first);
            failed.push(&mut pairs, (id, *place));
        }
        self.grouped(alloc, self.bound(), pairs, failed)
    }

    /// Every id that is defined is below this.
    pub fn bound(&self) -> usize {
        self.defined.len()
    }

    /// The instruction at this place.
    pub fn at(&self, place: u32) -> Instruction {
        let instruction = self.instructions.get(place as usize).copied();
        instruction.unwrap_or(Instruction::NONE)
    }

    /// The place of the instruction that defines an id.
    pub fn place_of(&self, id: u32) -> Option<u32> {
        number_at(&self.defined, id).checked_sub(1)
    }

    /// The instruction that defines an id.
    pub fn definition(&self, id: u32) -> Option<Instruction> {
        match self.place_of(id) {
            Some(place) => Some(self.at(place)),
            None => None,
        }
    }

    /// The instruction that defines an id; none where it is not defined.
    pub fn defined(&self, id: u32) -> Instruction {
        match self.place_of(id) {
            Some(place) => self.at(place),
            None => Instruction::NONE,
        }
    }

    /// The operands of an instruction, after its results.
    pub fn operands(&self, instruction: &Instruction) -> &[u32] {
        let place = instruction.first as usize..instruction.end as usize;
        self.words.get(place).unwrap_or(&[])
    }

    /// The operand at this index, if the instruction has so many.
    pub fn operand(&self, instruction: &Instruction, place: usize) -> Option<u32> {
        self.operands(instruction).get(place).copied()
    }

    /// The operands of an instruction from this index on.
    pub fn operands_from(&self, instruction: &Instruction, place: usize) -> &[u32] {
        self.operands(instruction).get(place..).unwrap_or(&[])
    }

    /// The operand at this index, which the instruction has to have.
    pub fn need(&self, instruction: &Instruction, place: usize) -> Result<u32, SpirvError> {
        match self.operand(instruction, place) {
            Some(word) => Ok(word),
            None => Err(instruction.malformed(Malformed::MissingOperand)),
        }
    }

    /// The name of an id, or of a member of its struct, if it has one.
    pub fn name(
        &self,
        alloc: Global,
        id: u32,
        member: Option<u32>,
    ) -> Result<Option<String>, SpirvError> {
        let slot = self.slot(id, member).unwrap_or(u32::MAX);
        let start = number_at(&self.names, slot);
        if (start as usize) < HEADER {
            return Ok(None);
        }
        let words = self.words.get(start as usize..).unwrap_or(&[]);
        match read_text(alloc, words, start) {
            Ok((text, _)) => Ok(Some(text)),
            Err(error) => Err(error),
        }
    }

    /// The instructions that decorate an id, or a member of its struct.
    pub fn decorations(&self, id: u32, member: Option<u32>) -> &[u32] {
        match self.slot(id, member) {
            Some(slot) => self.decorations.of(slot as usize),
            None => &[],
        }
    }

    /// The instructions that say how a function is executed.
    pub fn modes(&self, id: u32) -> &[u32] {
        self.modes.of(id as usize)
    }
}
