// Values that are used outside the scope of their block.

use crate::chains::{is_chain, need};
use spirv_numbers::ops;
use spirv_steps::{Block, Blocks, Scopes};
use spirv_words::{Failure, Feature, Groups, Instruction, Listing, as_word, number_at};
use std::alloc::Global;

// The most access steps from a variable to a pointer (universal limit of the standard).
const MAX_STEPS: usize = 255;

/// An incoming value of an `OpPhi`.
#[derive(Clone, Copy)]
pub struct Incoming {
    /// The `OpPhi`.
    pub phi: u32,
    /// Its representation.
    pub value: u32,
}

impl Incoming {
    // No value.
    const NONE: Incoming = Incoming { phi: 0, value: 0 };
}

// What is known of an id.
#[derive(Clone, Copy)]
struct Known {
    kept: bool,
    // the scope of its defining block plus 1, or 0
    scope: u32,
}

impl Known {
    // No values.
    const NOTHING: Known = Known {
        kept: false,
        scope: 0,
    };

    // Whether it is defined in a block whose scope does not include this one.
    fn is_out(&self, scopes: &Scopes, scope: u32) -> bool {
        match self.scope.checked_sub(1) {
            Some(defined) => !scopes.reaches(defined, scope),
            None => false,
        }
    }
}

/// The values that are stored in locals.
#[derive(Drop)]
pub struct Kept {
    known: Vec<Known>,
    /// Incoming values of `OpPhi`s.
    pub incoming: Vec<Incoming>,
    // by block: its outgoing values
    from: Groups,
}

impl Kept {
    /// Those of a module.
    pub fn of_module(
        alloc: Global,
        listing: &Listing,
        blocks: &Blocks,
        scopes: &Scopes,
        failed: &mut Failure,
    ) -> Kept {
        let mut known = failed.table(alloc, Known::NOTHING, listing.bound());
        define(listing, blocks, scopes, &mut known);
        let mut incoming = Vec::new(alloc);
        let mut pairs = Vec::new(alloc);
        add_comings(listing, blocks, &mut incoming, &mut pairs, failed);
        let from = failed.groups(alloc, blocks.blocks.len(), &pairs);
        drop(pairs);
        let mut kept = Kept {
            known,
            incoming,
            from,
        };
        kept.use_all(listing, blocks, scopes, failed);
        kept
    }

    // Collects what all blocks use.
    fn use_all(
        &mut self,
        listing: &Listing,
        blocks: &Blocks,
        scopes: &Scopes,
        failed: &mut Failure,
    ) {
        let mut number = 0u32;
        for block in &blocks.blocks {
            if let Some(scope) = scopes.of_block(number) {
                let known = &mut self.known;
                use_in_block(known, listing, scopes, scope, block, failed);
                for item in self.from.of(number as usize) {
                    let incoming = self.incoming.get(*item as usize).copied();
                    let value = incoming.unwrap_or(Incoming::NONE).value;
                    use_id(known, listing, scopes, scope, value, failed);
                }
            }
            number = number.saturating_add(1);
        }
    }

    /// Whether a value is stored in a local.
    pub fn is_kept(&self, id: u32) -> bool {
        let known = self.known.get(id as usize).copied();
        known.unwrap_or(Known::NOTHING).kept
    }

    /// The outgoing values of a block, by index.
    pub fn from_block(&self, block: u32) -> &[u32] {
        self.from.of(block as usize)
    }

    /// The outgoing value at this index.
    pub fn incoming_at(&self, block: u32, place: usize) -> Option<Incoming> {
        let item = self.from_block(block).get(place)?;
        self.incoming.get(*item as usize).copied()
    }
}

// Collects what the instructions of a block use, its terminator included.
fn use_in_block(
    known: &mut [Known],
    listing: &Listing,
    scopes: &Scopes,
    scope: u32,
    block: &Block,
    failed: &mut Failure,
) {
    for place in block.first..block.end.saturating_add(1) {
        let instruction = listing.at(place);
        if instruction.opcode != ops::PHI {
            for id in listing.operands(&instruction) {
                use_id(known, listing, scopes, scope, *id, failed);
            }
        }
    }
}

// Notes the use of an id: outside of its scope a value is stored in a local, and a pointer is rebuilt from the ids of its steps.
fn use_id(
    known: &mut [Known],
    listing: &Listing,
    scopes: &Scopes,
    scope: u32,
    id: u32,
    failed: &mut Failure,
) {
    let used = known.get(id as usize).copied();
    if !used.unwrap_or(Known::NOTHING).is_out(scopes, scope) {
        return;
    }
    let mut at = id;
    let mut steps = 0usize;
    for _ in 0..MAX_STEPS {
        let made = listing.defined(at);
        if is_chain(made.opcode) {
            let indexes = listing.operands_from(&made, 1);
            steps = steps.saturating_add(indexes.len());
            if steps > MAX_STEPS {
                break;
            }
            for index in indexes {
                keep(known, scopes, scope, *index);
            }
        } else {
            keep(known, scopes, scope, at);
            if made.opcode != ops::COPY_OBJECT && !gives_handle(listing, &made) {
                return;
            }
        }
        at = need(listing, &made, 0, failed);
    }
    let pointer = listing.defined(id);
    failed.fail(pointer.unsupported_by(Feature::LongPointer));
}

// Marks what is used outside of its scope.
fn keep(known: &mut [Known], scopes: &Scopes, scope: u32, id: u32) {
    if let Some(known) = known.get_mut(id as usize) {
        known.kept |= known.is_out(scopes, scope);
    }
}

// Whether the result is an image, a sampler or an acceleration structure that the first operand points to.
fn gives_handle(listing: &Listing, made: &Instruction) -> bool {
    let ty = listing.defined(made.ty).opcode;
    let is_handle = matches!(
        ty,
        ops::TYPE_IMAGE
            | ops::TYPE_SAMPLER
            | ops::TYPE_SAMPLED_IMAGE
            | ops::TYPE_ACCELERATION_STRUCTURE
    );
    is_handle && matches!(made.opcode, ops::LOAD | ops::IMAGE)
}

// Records for each id the scope of its defining block.
fn define(listing: &Listing, blocks: &Blocks, scopes: &Scopes, known: &mut [Known]) {
    let mut number = 0u32;
    for block in &blocks.blocks {
        let scope = match scopes.of_block(number) {
            Some(scope) => scope.saturating_add(1),
            None => 0,
        };
        number = number.saturating_add(1);
        for place in block.first..block.end {
            if let Some(at) = known.get_mut(listing.at(place).id as usize) {
                at.scope = scope;
            }
        }
    }
}

// Adds the incoming values of all functions, each with its block and index.
fn add_comings(
    listing: &Listing,
    blocks: &Blocks,
    incoming: &mut Vec<Incoming>,
    pairs: &mut Vec<(u32, u32)>,
    failed: &mut Failure,
) {
    for function in &blocks.functions {
        for place in function.parts.start..function.parts.end {
            let phi = listing.at(place);
            if phi.opcode != ops::PHI {
                continue;
            }
            let operands = listing.operands(&phi);
            for pair in 0..as_word(operands.len() / 2) {
                let value = number_at(operands, pair.saturating_mul(2));
                let label = number_at(operands, pair.saturating_mul(2).saturating_add(1));
                if let Some(from) = blocks.labelled(function, label) {
                    failed.push(pairs, (from, as_word(incoming.len())));
                    failed.push(incoming, Incoming { phi: phi.id, value });
                }
            }
        }
    }
}
