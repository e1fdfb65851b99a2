// Open blocks.

use wgsl_tree::{Step, StepKind};

// Open blocks.
#[derive(Clone, Copy, PartialEq, Eq)]
pub(crate) enum Around {
    // the body of a function
    Function,
    // a block statement
    Plain,
    // `if`, with the length of the `else if` chain so far
    If(u32),
    // `else`, with the length of the chain
    Else(u32),
    Loop,
    // `continuing`
    Continuing,
    // `while`
    While,
    // `for`, with the index from which the steps of its update are kept
    For(u32),
    // a `switch`, between its cases
    Switch,
    Case,
}

// The open blocks, innermost last, and the steps of updates, which belong after loop bodies.
#[derive(Drop)]
pub(crate) struct Blocks {
    pub open: Vec<Around>,
    pub kept: Vec<Step>,
}

// The maximum nesting of braces.
pub(crate) const MAX_BRACES: usize = 127;

// The number of `End` steps that close a block.
pub(crate) fn ends_of(around: Around) -> u32 {
    match around {
        Around::If(count) | Around::Else(count) => count,
        _ => 1,
    }
}

// An `End` step at a token.
pub(crate) fn end_at(token: u32) -> Step {
    Step {
        kind: StepKind::End,
        token,
    }
}
