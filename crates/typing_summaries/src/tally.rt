//! The tally of a function.

ghost use Rattle.std.specs.Prelude.{◌≡◌, IfOk, length};
ghost use Rattle.ir_blocks.specs.found.View.{block_view};
ghost use Rattle.typing_summaries.specs.Tallies.{known, tallied, nothing_tallied, whole_tally};

use crate::Sampled;
use crate::counts::Counts;
use ir_arena::arena::Arena;
use ir_arena::handle::Handle;
use ir_blocks::Block;
use ir_types::{Expression, key};
use std::alloc::{AllocError, Global};
use typing_infos::FunctionInfo;

/// The inputs of a tally.
#[derive(Clone, Copy)]
pub struct Context<'a> {
    /// The function's expressions.
    pub expressions: &'a Arena<Expression, key::Expression>,
    /// The global variable at the root of each expression's access chain, if any.
    pub globals: &'a [Option<Handle<key::GlobalVariable>>],
    /// The infos of the functions that it may call, by their handles.
    pub callees: &'a [FunctionInfo],
}

/// The tally of a function.
#[derive(Drop)]
pub struct Tally {
    /// The reference count of each expression, and the use of each global variable.
    pub counts: Counts,
    /// The pairs.
    pub sampled: Sampled,
    /// Whether the function may discard.
    pub may_kill: bool,
}

impl Tally {
    /// An empty tally for this many expressions and global variables.
    pub fn new(alloc: Global, expressions: usize, globals: usize) -> Result<Tally, AllocError>
        ensures { IfOk result (λ t. tallied t ≡ nothing_tallied expressions globals) }
    {
        Ok(Tally {
            counts: Counts::new(alloc, expressions, globals)?,
            sampled: Sampled::new(alloc),
            may_kill: false,
        })
    }

    /// The tally of a function with this body, in a module with this many global variables. The error is out of memory.
    pub fn of_function(
        alloc: Global,
        context: &Context<'_>,
        globals: usize,
        body: &Block,
    ) -> Result<Tally, AllocError>
        ensures { IfOk result (λ t. tallied t
            ≡ whole_tally (known context.now) (length context.now.expressions.now) globals (block_view body.now)) }
    {
        let mut tally = Tally::new(alloc, context.expressions.len(), globals)?;
        tally.add_expressions(context)?;
        tally.add_block(context, body)?;
        tally.counts.name_globals(context.expressions);
        Ok(tally)
    }
}
