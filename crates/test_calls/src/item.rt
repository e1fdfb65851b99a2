// The values in arenas here: numbers, and strings.
use ir_arena::handle::Kind;
use serde_json::Value;
use std::alloc::{AllocError, Global};
use std::fmt::Debug;
use std::hash::Hash;
use test_support::call::{number, text};

/// A handle tag.
#[derive(Clone, Copy)]
pub enum Tag {}

impl Kind for Tag {
    ghost use Rattle.std.specs.Prelude.{codes};

    ghost word = { codes "tagged" };

    fn word() -> &'static str {
        "tagged"
    }
}

/// A handle tag for numbers.
#[derive(Clone, Copy)]
pub enum Number {}

impl Kind for Number {
    ghost use Rattle.std.specs.Prelude.{codes};

    ghost word = { codes "number" };

    fn word() -> &'static str {
        "number"
    }
}

/// A value that a line of the input can name.
pub trait Item: Eq + Hash + Debug + Drop + Sized {
    /// The value at an index of a line.
    fn read(alloc: Global, call: &Value, place: usize) -> Result<Self, AllocError>;

    /// The value of a number, the length of a string.
    fn size(&self) -> usize;

    /// Adds 1 to a number, and appends "c" to a string.
    fn add(&mut self) -> Result<(), AllocError>;

    /// Adds ten times its index to a number, and appends "!" to a string.
    fn mark(&mut self, place: usize) -> Result<(), AllocError>;

    /// Adds its index to a number, and returns whether it is then neither 5 nor 9; for a string, whether it has one byte.
    fn keep(&mut self, place: usize) -> bool;
}

impl Item for u32 {
    fn read(_alloc: Global, call: &Value, place: usize) -> Result<Self, AllocError> {
        Ok(number(call, place))
    }

    fn size(&self) -> usize {
        *self as usize
    }

    fn add(&mut self) -> Result<(), AllocError> {
        *self = self.wrapping_add(1);
        Ok(())
    }

    fn mark(&mut self, place: usize) -> Result<(), AllocError> {
        *self = self.wrapping_add((place.min(1000) as u32).wrapping_mul(10));
        Ok(())
    }

    fn keep(&mut self, place: usize) -> bool {
        *self = self.wrapping_add(place.min(1000) as u32);
        *self != 5 && *self != 9
    }
}

impl Item for String {
    fn read(alloc: Global, call: &Value, place: usize) -> Result<Self, AllocError> {
        String::from_str(alloc, text(call, place))
    }

    fn size(&self) -> usize {
        self.len()
    }

    fn add(&mut self) -> Result<(), AllocError> {
        self.push_str("c")
    }

    fn mark(&mut self, _place: usize) -> Result<(), AllocError> {
        self.push_str("!")
    }

    fn keep(&mut self, _place: usize) -> bool {
        self.len() == 1
    }
}
