// The control flow of a module's functions, in order.

use crate::kept::Kept;
use crate::order::Order;
use crate::uses::Uses;
use spirv_steps::{Blocks, FunctionSteps, Steps, steps_of};
use spirv_words::{Failure, Listing, SpirvError};
use std::alloc::Global;

/// What is known of a module's functions before they are translated.
pub struct Flow {
    /// Their blocks.
    pub blocks: Blocks,
    /// Their order.
    pub order: Order,
    /// Their steps, with the scopes of blocks.
    pub steps: Steps,
    /// The steps of each function, callees first.
    pub functions: Vec<FunctionSteps>,
    /// The values that are stored in locals.
    pub kept: Kept,
}

// Written out, so that a drop anywhere is a call into this crate.
impl Drop for Flow {
    fn drop(self) {
        let Flow {
            blocks: _blocks,
            order: _order,
            steps: _steps,
            functions: _functions,
            kept: _kept,
        } = self;
    }
}

/// How variables and arguments of a module are used, and the steps of its functions.
pub fn flow_of(alloc: Global, listing: &Listing) -> Result<(Uses, Flow), SpirvError> {
    let mut failed = Failure::NONE;
    let blocks = Blocks::of_module(alloc, listing, &mut failed);
    let order = Order::of_module(alloc, listing, &blocks, &mut failed);
    let uses = Uses::of_module(alloc, listing, &blocks, &order, &mut failed);
    let (blocks, steps, functions) = steps_of(
        alloc,
        listing,
        blocks,
        &order.functions,
        &mut failed,
    );
    let kept = Kept::of_module(alloc, listing, &blocks, &steps.scopes, &mut failed);
    let flow = Flow {
        blocks,
        order,
        steps,
        functions,
        kept,
    };
    failed.answer((uses, flow))
}
