// What a branch to a block means.

/// What a branch to a block means. The number says of which construct.
#[derive(Clone, Copy)]
pub enum Meaning {
    /// It goes on with the block.
    Nothing,
    /// It ends a selection.
    Merge(u32),
    /// It goes on with another case of a switch, which is this target.
    Fall(u32, u32),
    /// It leaves a loop or a switch.
    Break(u32),
    /// It goes on with a loop's continuing part.
    Continue(u32),
    /// It goes back to a loop's header, from its continuing part.
    Back(u32),
}

/// Which constructs are around.
#[derive(Clone, Copy)]
pub struct Environment {
    /// The innermost selection.
    pub selection: u32,
    /// The innermost loop or switch.
    pub breakable: u32,
    /// The innermost loop.
    pub looping: u32,
    /// The innermost continuing part; constructs with a lesser number are outside of it.
    pub floor: u32,
    /// The continuing part that is nearest, with no loop between.
    pub back: u32,
    /// The block where the loop merges whose continuing part is innermost; the greatest where another construct is.
    pub exit: u32,
    /// The case that is nearest.
    pub case: u32,
    /// How many meanings are changed.
    pub changes: usize,
}

impl Environment {
    /// What is around a function.
    pub const START: Environment = Environment {
        selection: 0,
        breakable: 0,
        looping: 0,
        floor: 0,
        back: 0,
        exit: u32::MAX,
        case: u32::MAX,
        changes: 0,
    };
}
