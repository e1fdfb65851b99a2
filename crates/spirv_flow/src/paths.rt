// The parts of variables that atomic operations use.

use crate::chains::{Part, is_chain, need, part_at, pointee};
use spirv_numbers::ops;
use spirv_words::{Failure, Feature, Instruction, Listing, as_word, number_at, set_number};
use std::alloc::Global;

// The most access steps from a variable to a pointer (universal limit of the standard), and the most atomic parts of one value.
const MAX_STEPS: usize = 255;

// The most parts visited for each word of the module.
const PARTS_A_WORD: usize = 64;

/// A part of a variable: the variable itself, a member of a struct, or the elements of an array.
#[derive(Clone, Copy)]
pub struct PathPart {
    /// The index of the member; `None` for elements, and for a variable itself.
    pub member: Option<u32>,
    /// Whether it is atomic itself.
    pub is_atomic: bool,
    // its first child and its next sibling, each index plus 1
    first: u32,
    next: u32,
}

impl PathPart {
    // A part without children.
    const NEW: PathPart = PathPart {
        member: None,
        is_atomic: false,
        first: 0,
        next: 0,
    };
}

/// The atomic parts of variables, each variable with its id.
#[derive(Drop)]
pub struct Paths {
    parts: Vec<PathPart>,
    // by id of a variable: its index plus 1, or 0
    variables: Vec<u32>,
    // the parts that may still be visited
    left: usize,
}

impl Paths {
    /// None.
    pub fn new(alloc: Global, listing: &Listing, failed: &mut Failure) -> Paths {
        Paths {
            parts: Vec::new(alloc),
            variables: failed.table(alloc, 0u32, listing.bound()),
            left: listing.words.len().saturating_mul(PARTS_A_WORD),
        }
    }

    /// Whether a part of this variable is atomic.
    pub fn has(&self, variable: u32) -> bool {
        self.of(variable).is_some()
    }

    /// The place of a variable.
    pub fn of(&self, variable: u32) -> Option<u32> {
        number_at(&self.variables, variable).checked_sub(1)
    }

    /// The part at this index.
    pub fn part(&self, place: u32) -> Option<PathPart> {
        self.parts.get(place as usize).copied()
    }

    /// The first child of the part at this index.
    pub fn first(&self, place: u32) -> Option<u32> {
        self.at(place).first.checked_sub(1)
    }

    /// The next sibling of this part.
    pub fn next(&self, place: u32) -> Option<u32> {
        self.at(place).next.checked_sub(1)
    }

    // The part at this index; one without children where there is none.
    fn at(&self, place: u32) -> PathPart {
        self.part(place).unwrap_or(PathPart::NEW)
    }

    // The child of a part, added where there is none.
    fn inside(
        &mut self,
        place: u32,
        member: Option<u32>,
        atomic: &Instruction,
        failed: &mut Failure,
    ) -> u32 {
        let first = self.at(place).first;
        let mut at = first;
        for _ in 0..MAX_STEPS.min(self.left) {
            self.left = self.left.saturating_sub(1);
            let Some(found) = at.checked_sub(1) else {
                let made = PathPart {
                    member,
                    next: first,
                    ..PathPart::NEW
                };
                failed.push(&mut self.parts, made);
                let made = as_word(self.parts.len());
                if let Some(part) = self.parts.get_mut(place as usize) {
                    part.first = made;
                }
                return made.saturating_sub(1);
            };
            let part = self.at(found);
            if part.member == member {
                return found;
            }
            at = part.next;
        }
        let feature = if self.left == 0 {
            Feature::TooMuch
        } else {
            Feature::AtomicParts
        };
        failed.fail(atomic.unsupported_by(feature));
        place
    }

    /// Marks the part of a variable that a pointer leads to as atomic.
    pub fn add(
        &mut self,
        listing: &Listing,
        pointer: u32,
        variable: u32,
        atomic: &Instruction,
        failed: &mut Failure,
    ) {
        let mut chains = Vec::new(*self.parts.allocator());
        add_chains(listing, pointer, atomic, &mut chains, failed);
        let mut place = as_word(self.parts.len());
        if let Some(known) = self.of(variable) {
            place = known;
        } else {
            failed.push(&mut self.parts, PathPart::NEW);
            set_number(&mut self.variables, variable, place.saturating_add(1));
        }
        for chain in chains.iter().rev() {
            place = self.follow(listing, chain, place, failed);
        }
        drop(chains);
        if let Some(part) = self.parts.get_mut(place as usize) {
            part.is_atomic = true;
        }
    }

    // The part that a chain leads to from this one.
    fn follow(
        &mut self,
        listing: &Listing,
        chain: &Instruction,
        from: u32,
        failed: &mut Failure,
    ) -> u32 {
        let mut place = from;
        let base = need(listing, chain, 0, failed);
        let Some(mut ty) = pointee(listing, listing.defined(base).ty) else {
            return place;
        };
        for index in listing.operands_from(chain, 1) {
            let part = failed.take(part_at(listing, ty, *index, chain), Part::NONE);
            place = self.inside(place, part.member, chain, failed);
            ty = part.ty;
        }
        place
    }
}

// Adds the access chains that lead to a pointer to a list, the last first.
fn add_chains(
    listing: &Listing,
    pointer: u32,
    atomic: &Instruction,
    chains: &mut Vec<Instruction>,
    failed: &mut Failure,
) {
    let mut id = pointer;
    let mut steps = 0usize;
    for _ in 0..MAX_STEPS {
        let made = listing.defined(id);
        if is_chain(made.opcode) {
            steps = steps.saturating_add(listing.operands_from(&made, 1).len());
            if steps > MAX_STEPS {
                break;
            }
            failed.push(chains, made);
        } else if made.opcode != ops::COPY_OBJECT {
            return;
        }
        id = need(listing, &made, 0, failed);
    }
    failed.fail(atomic.unsupported_by(Feature::LongPointer));
}
