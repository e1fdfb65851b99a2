//! The steps of a path to a place in a body.

/// A part of a statement: one of its nested blocks.
#[derive(Clone, Copy, PartialEq, Eq, Debug)]
pub enum Part {
    /// The block of a `Block` statement.
    Inner,
    /// The `accept` block of an `If`.
    Accepting,
    /// The `reject` block of an `If`.
    Rejecting,
    /// The body of a switch case, by its index.
    Case(usize),
    /// The body of a `Loop`.
    LoopBody,
    /// The continuing block of a `Loop`.
    LoopContinuing,
}

/// A step of a path to a place: into a part of the statement at an index of a block.
#[derive(Clone, Copy, PartialEq, Eq, Debug)]
pub struct Step {
    /// The index of the statement in the block, from 0.
    pub index: usize,
    /// The part.
    pub part: Part,
}
