// The calls that grow a block, with little memory.
use crate::call::{completed, freeing, no_call, told};
use crate::hog::{Steps, Trial, is_refused_more_than};
use ir_arena::handle::Handle;
use ir_arena::range::Range;
use ir_arena::span::Span;
use ir_items::{Block, Statement, ensure_block_returns};
use std::alloc::{AllocError, Global};
use std::mem;

/// The bytes added at each step, the least by which the C library distinguishes two blocks, of a block larger than the calls
/// need.
const STEPS: Steps = Steps {
    most: 2000,
    more: 32,
    spare: 1 << 16,
};

/// The first capacity of a list, so that one more value allocates.
const FEW: [u32; 4] = [1, 2, 3, 4];

const MANY: [u32; 12] = [11, 12, 13, 14, 15, 16, 17, 18, 19, 20, 21, 22];

fn emit(place: u32) -> Statement {
    Statement::Emit(Range::new(place, 50))
}

fn span(place: u32) -> Span {
    Span::new(place, 90)
}

// Appends the statements with these numbers to a block, each with its own span.
fn push(block: &mut Block, places: &[u32]) -> Result<(), AllocError> {
    for place in places {
        block.push(emit(*place), span(*place))?;
    }
    Ok(())
}

// Sets a block to the first numbers, and then to the second.
fn put(alloc: Global, block: &mut Block, first: &[u32], second: &[u32]) -> Result<(), AllocError> {
    *block = Block::new(alloc);
    push(block, first)?;
    push(block, second)
}

// A block, which is left empty.
fn taken(alloc: Global, block: &mut Block) -> Block {
    mem::replace(block, Block::new(alloc))
}

// The blocks of a call: the growing one, its old and new contents, two that are inserted into it, and the contents of both.
#[derive(Drop)]
struct Growth<'a> {
    name: &'a str,
    subject: Block,
    before: Block,
    after: Block,
    other: Block,
    spare: Block,
    many: Block,
}

impl Trial for Growth<'_> {
    fn begin(&mut self, alloc: Global) -> Result<(), AllocError> {
        put(alloc, &mut self.subject, &FEW, &[])?;
        put(alloc, &mut self.before, &FEW, &[])?;
        put(alloc, &mut self.other, &MANY, &[])?;
        put(alloc, &mut self.spare, &MANY, &[])?;
        put(alloc, &mut self.many, &MANY, &[])?;
        match self.name {
            "push" | "extend" => put(alloc, &mut self.after, &FEW, &[9]),
            "splice" => put(alloc, &mut self.after, &MANY, &FEW),
            _ => put(alloc, &mut self.after, &FEW, &MANY),
        }
    }

    fn is_refused(&mut self, alloc: Global) -> bool {
        let answer = match self.name {
            "push" => self.subject.push(emit(9), span(9)),
            "extend" => self.subject.extend(Some((emit(9), span(9)))),
            "extend_block" => self.subject.extend_block(taken(alloc, &mut self.spare)),
            "append" => self.subject.append(&mut self.other),
            _ => self.subject.splice(..0, taken(alloc, &mut self.spare)),
        };
        answer.is_err()
    }

    fn is_right(&mut self, refused: bool) -> bool {
        if refused {
            self.subject == self.before && self.other == self.many
        } else {
            self.subject == self.after
        }
    }
}

// Room for eight statements.
#[derive(Drop)]
struct Room;

impl Trial for Room {
    fn is_refused(&mut self, alloc: Global) -> bool {
        Block::with_capacity(alloc, 8).is_err()
    }

    fn is_right(&mut self, _refused: bool) -> bool {
        true
    }
}

// A body into which returns are inserted, in place or in a copy, with its old and new contents.
#[derive(Drop)]
struct Returning {
    in_place: bool,
    body: Block,
    before: Block,
    after: Block,
}

// Appends four statements and a return to a block.
fn fill_side(side: &mut Block, returns: bool) -> Result<(), AllocError> {
    for _ in 0..4 {
        side.push(Statement::Emit(Range::new(0, 1)), Span::UNDEFINED)?;
    }
    if returns {
        side.push(Statement::Return { value: None }, Span::UNDEFINED)?;
    }
    Ok(())
}

// A block of four statements without room for another, or for a return, which it has afterwards.
fn side(alloc: Global, returns: bool) -> Result<Block, AllocError> {
    let mut side = Block::with_capacity(alloc, if returns { 5 } else { 4 })?;
    completed(fill_side(&mut side, returns), side)
}

// An `If` with two such blocks.
fn choice(alloc: Global, returns: bool) -> Result<Statement, AllocError> {
    let accept = side(alloc, returns)?;
    match side(alloc, returns) {
        Ok(reject) => Ok(Statement::If {
            condition: Handle::at(0),
            accept,
            reject,
        }),
        Err(error) => {
            drop(accept);
            Err(error)
        }
    }
}

// Sets a body to such an `If`.
fn put_choice(alloc: Global, body: &mut Block, returns: bool) -> Result<(), AllocError> {
    *body = Block::new(alloc);
    body.push(choice(alloc, returns)?, Span::UNDEFINED)
}

// Replaces a body by a copy with returns inserted. Returns whether an allocation failed.
fn is_copy_refused(alloc: Global, body: &mut Block, source: &Block) -> bool {
    match source.clone(alloc) {
        Ok(copy) => {
            *body = copy;
            ensure_block_returns(alloc, body).is_err()
        }
        Err(_) => true,
    }
}

impl Trial for Returning {
    fn begin(&mut self, alloc: Global) -> Result<(), AllocError> {
        put_choice(alloc, &mut self.body, false)?;
        put_choice(alloc, &mut self.before, false)?;
        put_choice(alloc, &mut self.after, true)
    }

    fn is_refused(&mut self, alloc: Global) -> bool {
        if self.in_place {
            return ensure_block_returns(alloc, &mut self.body).is_err();
        }
        is_copy_refused(alloc, &mut self.body, &self.before)
    }

    fn is_right(&mut self, refused: bool) -> bool {
        if refused {
            self.body == self.before
        } else {
            self.body == self.after
        }
    }
}

// Whether a call fails more often than this. It is freed here, where its type is a parameter.
fn of<T: Trial + Drop>(alloc: Global, least: usize, trial: T) -> Result<String, AllocError> {
    let mut trial = trial;
    freeing(
        told(alloc, is_refused_more_than(alloc, least, STEPS, &mut trial)),
        trial,
    )
}

fn new_growth(alloc: Global, name: &str) -> Growth<'_> {
    Growth {
        name,
        subject: Block::new(alloc),
        before: Block::new(alloc),
        after: Block::new(alloc),
        other: Block::new(alloc),
        spare: Block::new(alloc),
        many: Block::new(alloc),
    }
}

fn new_returning(alloc: Global, in_place: bool) -> Returning {
    Returning {
        in_place,
        body: Block::new(alloc),
        before: Block::new(alloc),
        after: Block::new(alloc),
    }
}

/// Whether a call on a block fails more often than this.
pub fn of_block(alloc: Global, name: &str, least: usize) -> Result<String, AllocError> {
    match name {
        "push" | "extend" | "extend_block" | "append" | "splice" => {
            of(alloc, least, new_growth(alloc, name))
        }
        "with_capacity" => of(alloc, least, Room),
        "returns" => of(alloc, least, new_returning(alloc, true)),
        "returns of a copy" => of(alloc, least, new_returning(alloc, false)),
        _ => no_call(alloc),
    }
}
