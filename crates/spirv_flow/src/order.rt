// Functions ordered so that each comes after those that it calls.

use spirv_numbers::ops;
use spirv_steps::Blocks;
use spirv_words::{
    Failure, Feature, Instruction, Listing, Malformed, as_word, number_at, set_number,
};
use std::alloc::Global;

// The mark of a function that has begun and not ended.
const OPEN: u32 = u32::MAX;

/// The functions of a module in order, and the position of each.
#[derive(Drop)]
pub struct Order {
    /// The functions by their numbers in the module, callees first.
    pub functions: Vec<u32>,
    // by id of a function: its position in that order plus 1, or 0
    places: Vec<u32>,
}

// A walk over functions and their calls.
#[derive(Drop)]
struct Visit {
    // by id: the index of the function plus 1, or 0
    numbers: Vec<u32>,
    // a stack of functions, each with the instruction where it continues, or 0 at its start
    next: Vec<(u32, u32)>,
    order: Order,
}

impl Order {
    /// The order of a module's functions. Recursion is not translated.
    pub fn of_module(
        alloc: Global,
        listing: &Listing,
        blocks: &Blocks,
        failed: &mut Failure,
    ) -> Order {
        let mut visit = Visit {
            numbers: failed.table(alloc, 0u32, listing.bound()),
            next: Vec::new(alloc),
            order: Order {
                functions: Vec::new(alloc),
                places: failed.table(alloc, 0u32, listing.bound()),
            },
        };
        visit.visit_all(listing, blocks, failed);
        let Visit { order, .. } = visit;
        order
    }

    /// The position of the function with this id.
    pub fn place_of(&self, id: u32) -> Option<u32> {
        number_at(&self.places, id).checked_sub(1)
    }
}

impl Visit {
    // Orders all functions, each after those that it calls.
    fn visit_all(&mut self, listing: &Listing, blocks: &Blocks, failed: &mut Failure) {
        let mut number = as_word(blocks.functions.len());
        for function in blocks.functions.iter().rev() {
            let id = listing.at(function.parts.start).id;
            set_number(&mut self.numbers, id, number);
            number = number.saturating_sub(1);
            failed.push(&mut self.next, (number, 0));
        }
        // each function begins and ends once, and goes on after each call
        for _ in 0..listing.instructions.len().saturating_mul(2) {
            match self.next.pop() {
                Some((function, place)) => self.step(listing, blocks, function, place, failed),
                None => return,
            }
        }
    }

    // Continues a function from this instruction to its next call, or ends it.
    fn step(
        &mut self,
        listing: &Listing,
        blocks: &Blocks,
        number: u32,
        from: u32,
        failed: &mut Failure,
    ) {
        let Some(function) = blocks.functions.get(number as usize) else {
            return;
        };
        let first = listing.at(function.parts.start);
        if from == 0 {
            match number_at(&self.order.places, first.id) {
                0 => set_number(&mut self.order.places, first.id, OPEN),
                OPEN => {
                    failed.fail(first.unsupported_by(Feature::Recursion));
                    return;
                }
                _ => return,
            }
        }
        for place in from.max(function.parts.start)..function.parts.end {
            let call = listing.at(place);
            if call.opcode == ops::FUNCTION_CALL {
                failed.push(&mut self.next, (number, place.saturating_add(1)));
                let callee = callee_of(listing, &self.numbers, &call, failed);
                failed.push(&mut self.next, (callee, 0));
                return;
            }
        }
        failed.push(&mut self.order.functions, number);
        let place = as_word(self.order.functions.len());
        set_number(&mut self.order.places, first.id, place);
    }
}

// The index of the callee; the greatest number if there is none.
fn callee_of(listing: &Listing, numbers: &[u32], call: &Instruction, failed: &mut Failure) -> u32 {
    let what = match listing.operand(call, 0) {
        Some(id) => match number_at(numbers, id).checked_sub(1) {
            Some(number) => return number,
            None => Malformed::NoFunction,
        },
        None => Malformed::MissingOperand,
    };
    failed.fail(call.malformed(what));
    u32::MAX
}
