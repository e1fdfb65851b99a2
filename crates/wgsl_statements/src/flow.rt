// The statements that are open around the current one.

use ir_kinds::{Literal, SwitchValue};
use wgsl_text::{Extent, Failure};
use wgsl_types::Shape;

// The kind of an open statement. Its blocks are kept in the builder.
#[derive(Clone, Copy)]
pub(crate) enum Around {
    Block,
    // the condition
    If(u32),
    Else(u32),
    Loop,
    // a loop in its `continuing` block, and its `break if` condition
    Continuing(Option<u32>),
    While,
    // a `for` loop, and whether it is in its `continuing` block
    For(bool),
    // the selector, and the start of its cases in the table
    Switch(Selector, u32),
    Case,
}

// The selector of a `switch`: its expression, whether it is `u32`, and its value if that is an abstract integer.
#[derive(Clone, Copy)]
pub(crate) struct Selector {
    pub value: u32,
    pub unsigned: bool,
    pub known: Option<i64>,
}

impl Around {
    // The number of blocks that the statement nests: a loop with a condition has its body in a block of its own, and a switch
    // counts as two.
    fn levels(self) -> u32 {
        match self {
            Around::While | Around::For(_) => 2,
            Around::Block
            | Around::If(_)
            | Around::Else(_)
            | Around::Loop
            | Around::Continuing(_)
            | Around::Switch(..)
            | Around::Case => 1,
        }
    }
}

// An open statement, its span, and the number of blocks around the statements in it.
#[derive(Clone, Copy)]
pub(crate) struct Open {
    pub around: Around,
    pub extent: Extent,
    pub level: u32,
}

// A case of an open `switch`.
#[derive(Clone, Copy)]
pub(crate) struct CaseEntry {
    pub value: SwitchValue,
    // whether the value is abstract and converts to the selector's type
    pub converts: bool,
    // whether the next value has the same body
    pub falls: bool,
}

// The expression of a `let` whose initializer is a constant scalar, and that scalar.
#[derive(Clone, Copy)]
pub(crate) struct Bound {
    pub value: u32,
    pub literal: Literal,
}

// The state of the function body that is lowered.
#[derive(Drop)]
pub(crate) struct Flow {
    pub open: Vec<Open>,
    pub cases: Vec<CaseEntry>,
    // in the order of the expressions
    pub lets: Vec<Bound>,
    // the result type of the function
    pub gives: Shape,
    // the number of open loops
    pub loops: u32,
}

impl Flow {
    // Records the scalar of a `let`.
    pub(crate) fn bind(&mut self, value: u32, literal: Literal, failed: &mut Failure) {
        failed.push(&mut self.lets, Bound { value, literal });
    }

    // The scalar of the `let` with this expression, if it is constant.
    pub(crate) fn bound(&self, value: u32) -> Option<Literal> {
        let mut first: usize = 0;
        let mut end = self.lets.len();
        for _ in 0..64_u32 {
            let middle = first.saturating_add(end.saturating_sub(first) / 2);
            let found = self.lets.get(middle)?;
            if found.value == value {
                return Some(found.literal);
            }
            if found.value < value {
                first = middle.saturating_add(1);
            } else {
                end = middle;
            }
            if first >= end {
                break;
            }
        }
        None
    }

    // Pops the innermost open statement.
    pub(crate) fn pop(&mut self) -> Option<Open> {
        self.open.pop()
    }

    // The number of blocks around the next statement.
    pub(crate) fn level(&self) -> u32 {
        match self.open.last() {
            Some(open) => open.level,
            None => 0,
        }
    }

    // The number of blocks around the statements in this one, once it is opened.
    pub(crate) fn level_in(&self, around: Around) -> u32 {
        self.level().saturating_add(around.levels())
    }
}
