// Arenas and sets that grow until an allocation fails.
use crate::hog::Trial;
use ir_arena::arena::Arena;
use ir_arena::handle::Handle;
use ir_arena::span::Span;
use ir_sets::handle_set::HandleSet;
use ir_sets::unique_arena::UniqueArena;
use std::alloc::{AllocError, Global};

// The maximum number of growing calls. A list allocates room for several values at once.
const MOST_CALLS: u32 = 1000;

/// A handle tag.
#[derive(Clone, Copy)]
pub enum Tag {}

/// A container that grows by one value per call.
pub trait Growing: Drop {
    fn grow(&mut self, value: u32) -> Result<(), AllocError>;

    /// Whether a call without allocation works.
    fn answers(&mut self) -> bool;

    /// Whether it has its initial values and this many more, if this value was the first that failed.
    fn holds(&mut self, more: u32) -> bool;
}

/// What grows until an allocation fails.
#[derive(Drop)]
pub struct Growth<G: Growing> {
    pub subject: G,
    /// The value whose call failed.
    pub refused: Option<u32>,
    /// Whether a call without allocation works afterwards.
    pub answers: bool,
}

// Calls until an allocation fails. Returns the number of calls before it.
fn grow_all<G: Growing>(subject: &mut G) -> Option<u32> {
    for value in 0..MOST_CALLS {
        if subject.grow(value).is_err() {
            return Some(value);
        }
    }
    None
}

impl<G: Growing> Trial for Growth<G> {
    fn is_refused(&mut self, _alloc: Global) -> bool {
        self.refused = grow_all(&mut self.subject);
        self.answers = self.subject.answers();
        self.refused.is_some()
    }

    fn is_right(&mut self, _refused: bool) -> bool {
        match self.refused {
            Some(more) => self.answers && self.subject.holds(more),
            None => false,
        }
    }
}

/// An arena of these numbers, each with a span from itself to 5000.
pub fn numbers(alloc: Global, values: &[u32]) -> Result<Arena<u32>, AllocError> {
    let mut arena = Arena::new(alloc);
    for value in values {
        arena.append(*value, Span::new(*value, 5000))?;
    }
    Ok(arena)
}

// Whether this is the first number.
fn begins_with(arena: &Arena<u32>, value: u32) -> bool {
    arena.len() > 0 && arena[Handle::at(0)] == value
}

// Whether an arena of 2000 and 3000 has this many more values.
fn holds_more(arena: &Arena<u32>, more: u32) -> bool {
    arena.len().checked_sub(2) == Some(more as usize)
        && begins_with(arena, 2000)
        && arena.get_span(Handle::at(1)) == Span::new(3000, 5000)
}

#[derive(Drop)]
pub struct Appended(pub Arena<u32>);

impl Growing for Appended {
    fn grow(&mut self, value: u32) -> Result<(), AllocError> {
        self.0.append(value, Span::new(1, 2))?;
        Ok(())
    }

    fn answers(&mut self) -> bool {
        true
    }

    fn holds(&mut self, more: u32) -> bool {
        holds_more(&self.0, more) && self.0.append(9, Span::UNDEFINED).is_ok()
    }
}

#[derive(Drop)]
pub struct Fetched(pub Arena<u32>);

impl Growing for Fetched {
    fn grow(&mut self, value: u32) -> Result<(), AllocError> {
        self.0.fetch_or_append(value, Span::new(1, 2))?;
        Ok(())
    }

    fn answers(&mut self) -> bool {
        self.0.fetch_or_append(3000, Span::UNDEFINED) == Ok(Handle::at(1))
    }

    fn holds(&mut self, more: u32) -> bool {
        holds_more(&self.0, more)
    }
}

#[derive(Drop)]
pub struct FetchedEqual(pub Arena<u32>);

fn fetch_equal(arena: &mut Arena<u32>, value: u32) -> Result<Handle<u32>, AllocError> {
    arena.fetch_if_or_append(value, Span::UNDEFINED, |old, new| *old == *new)
}

impl Growing for FetchedEqual {
    fn grow(&mut self, value: u32) -> Result<(), AllocError> {
        fetch_equal(&mut self.0, value)?;
        Ok(())
    }

    fn answers(&mut self) -> bool {
        fetch_equal(&mut self.0, 2000) == Ok(Handle::at(0))
    }

    fn holds(&mut self, more: u32) -> bool {
        holds_more(&self.0, more)
    }
}

// It starts with 2000.
#[derive(Drop)]
pub struct Inserted(pub UniqueArena<u32>);

impl Growing for Inserted {
    fn grow(&mut self, value: u32) -> Result<(), AllocError> {
        self.0.insert(value, Span::UNDEFINED)?;
        Ok(())
    }

    fn answers(&mut self) -> bool {
        self.0.insert(2000, Span::UNDEFINED) == Ok(Handle::at(0))
    }

    fn holds(&mut self, more: u32) -> bool {
        self.0.len().checked_sub(1) == Some(more as usize)
            && self.0.get(&more).is_none()
            && self.0.get_span(Handle::at(0)) == Span::new(1, 2)
    }
}

// It starts with 2.
#[derive(Drop)]
pub struct Members(pub HandleSet<Tag>);

// A handle in a word of its own.
fn apart(value: u32) -> Handle<Tag> {
    Handle::at(64 * value.min(MOST_CALLS) as usize + 64)
}

impl Growing for Members {
    fn grow(&mut self, value: u32) -> Result<(), AllocError> {
        self.0.insert(apart(value))?;
        Ok(())
    }

    fn answers(&mut self) -> bool {
        self.0.insert(Handle::at(2)) == Ok(false) && self.0.remove(Handle::at(2))
    }

    fn holds(&mut self, more: u32) -> bool {
        self.0.len() == more as usize && !self.0.contains(apart(more))
    }
}

/// An arena of 2000.
pub fn unique(alloc: Global) -> Result<UniqueArena<u32>, AllocError> {
    let mut arena = UniqueArena::new(alloc);
    arena.insert(2000, Span::new(1, 2))?;
    Ok(arena)
}

/// A set of 2.
pub fn set_of_one(alloc: Global) -> Result<HandleSet<Tag>, AllocError> {
    let mut set = HandleSet::new(alloc);
    set.insert(Handle::at(2))?;
    Ok(set)
}
