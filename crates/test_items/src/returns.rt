// Returns that are inserted at the ends of bodies.
use crate::told::Told;
use ir_items::{Block, ensure_block_returns};
use serde_json::Value;
use std::alloc::{AllocError, Global};
use test_support::call::{freeing, no_call, told};

// Whether a body with returns inserted is the expected one.
fn is_completed(alloc: Global, body: &mut Block, expected: &Block) -> Result<bool, AllocError> {
    ensure_block_returns(alloc, body)?;
    Ok(*body == *expected)
}

// Whether returns are inserted where they belong, and no more the second time.
fn puts_in(alloc: Global, body: &mut Block, expected: &Block) -> Result<bool, AllocError> {
    let once = is_completed(alloc, body, expected)?;
    Ok(is_completed(alloc, body, expected)? && once)
}

// Whether a copy of the body with returns inserted is the expected one.
fn completes(alloc: Global, body: &Block, expected: &Block) -> Result<bool, AllocError> {
    let mut copy = body.clone(alloc)?;
    freeing(is_completed(alloc, &mut copy, expected), copy)
}

impl Told for Block {
    // Whether inserting returns in a copy and in place turns the first body into the second, and its length afterwards.
    fn tell(
        &mut self,
        alloc: Global,
        source: &Self,
        other: &Option<Self>,
        _call: &Value,
    ) -> Result<String, AllocError> {
        let Some(expected) = other else {
            return no_call(alloc);
        };
        let completes = completes(alloc, source, expected);
        let puts_in = puts_in(alloc, self, expected);
        told(alloc, (completes, puts_in, self.len()))
    }
}
