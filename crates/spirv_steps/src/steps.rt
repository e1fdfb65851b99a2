// What a function does, in order.

/// A step of a function. A block's instructions are those of its number; conditions, selectors and values are the operands
/// of its end.
#[derive(Clone, Copy)]
pub enum Step {
    /// The instructions of this block.
    Block(u32),
    /// Where the condition of this block's end holds, the steps up to `Else`.
    If(u32),
    /// Where it does not, the steps up to `EndIf`.
    Else,
    /// The end of an if.
    EndIf,
    /// A switch on the selector of this block's end; its cases are listed from `first` on.
    Switch {
        /// The block.
        block: u32,
        /// The first of its cases.
        first: u32,
        /// How many it has.
        count: u32,
        /// The step after the switch.
        after: u32,
    },
    /// The end of a case's body.
    EndCase,
    /// The body of a loop, up to `Continuing`.
    Loop,
    /// Its continuing part, up to `EndLoop`.
    Continuing,
    /// The end of a loop, with the condition that leaves it.
    EndLoop(Option<BreakIf>),
    /// Leaves the nearest loop or switch.
    Break,
    /// Goes on with the nearest loop's continuing part.
    Continue,
    /// Sets the flag of this loop, which says that it is left.
    SetFlag(u32),
    /// Leaves the nearest loop or switch where the flag of this loop is set.
    BreakIfFlag(u32),
    /// Takes the flag of this loop back.
    ClearFlag(u32),
    /// Returns, with the value of this block's end if it has one.
    Return(u32),
    /// Ends the invocation.
    Kill,
}

/// The steps of one function.
#[derive(Clone, Copy)]
pub struct FunctionSteps {
    /// The function by its number in the module.
    pub function: u32,
    /// Its first step.
    pub first: u32,
    /// The step after its last one.
    pub end: u32,
}

/// The condition that leaves a loop.
#[derive(Clone, Copy)]
pub struct BreakIf {
    /// The block at whose end it stands.
    pub block: u32,
    /// Whether the loop is left where it does not hold.
    pub negated: bool,
}

/// The value that chooses a case.
#[derive(Clone, Copy)]
pub enum Choice {
    /// A word.
    Word(u32),
    /// What no other case has.
    Default,
}

/// What is done in a case.
#[derive(Clone, Copy)]
pub enum CaseBody {
    /// Nothing.
    Empty,
    /// The switch is left.
    Break,
    /// The steps from this one on, up to their `EndCase`.
    Steps(u32),
}

/// A case of a switch.
#[derive(Clone, Copy)]
pub struct Case {
    /// What chooses it.
    pub choice: Choice,
    /// What is done.
    pub body: CaseBody,
    /// Whether it goes on with the next one.
    pub falls_through: bool,
}
