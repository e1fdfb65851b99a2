// Calls with little memory, and a little more each time: copies, compositions and, in another file, calls on blocks.
use crate::item::{Item, read_at};
use crate::walks::{Composition, leaves_of};
use ir_items::{Block, Expression, FlattenCompose, Function, IrType, Module};
use serde_json::Value;
use std::alloc::{AllocError, Global};
use test_support::block_in_little;
use test_support::call::{freeing, no_call, number, text, told};
use test_support::hog::{Steps, Trial, is_refused_more_than};

// A copy of an item.
#[derive(Drop)]
struct Copying<'a, T: Item> {
    source: &'a T,
    copy: Option<T>,
}

impl<T: Item> Trial for Copying<'_, T> {
    fn is_refused(&mut self, alloc: Global) -> bool {
        self.copy = self.source.copy(alloc).ok();
        self.copy.is_none()
    }

    fn is_right(&mut self, _refused: bool) -> bool {
        let source = self.source;
        match &self.copy {
            Some(copy) => *copy == *source,
            None => true,
        }
    }
}

// Whether a copy fails more often than a line says, with this many bytes more each time.
fn is_copy_refused<T: Item>(
    alloc: Global,
    source: &T,
    call: &Value,
) -> Result<Option<bool>, AllocError> {
    let steps = Steps {
        most: 1000,
        more: number(call, 4) as usize,
        spare: 0,
    };
    let mut copying = Copying { source, copy: None };
    freeing(
        is_refused_more_than(alloc, number(call, 5) as usize, steps, &mut copying),
        copying,
    )
}

// The report on copies of the item after its kind.
fn of_copies<T: Item>(alloc: Global, call: &Value) -> Result<String, AllocError> {
    match read_at::<T>(alloc, call, 3)? {
        Some(source) => freeing(told(alloc, is_copy_refused(alloc, &source, call)), source),
        None => no_call(alloc),
    }
}

// The same for an item of a kind.
fn of_sort(alloc: Global, sort: &str, call: &Value) -> Result<String, AllocError> {
    match sort {
        "type" => of_copies::<IrType>(alloc, call),
        "expression" => of_copies::<Expression>(alloc, call),
        "body" => of_copies::<Block>(alloc, call),
        "function" => of_copies::<Function>(alloc, call),
        "module" => of_copies::<Module>(alloc, call),
        _ => no_call(alloc),
    }
}

/// The result of a call with little memory.
pub fn answer(alloc: Global, call: &Value) -> Result<String, AllocError> {
    match text(call, 1) {
        "copy" => of_sort(alloc, text(call, 2), call),
        name => block_in_little(alloc, name, number(call, 2) as usize),
    }
}

// The components of a composition, beside the expected ones.
#[derive(Drop)]
struct Flattening<'a> {
    composition: &'a Composition<'a>,
    expected: &'a [usize],
    leaves: Option<FlattenCompose>,
}

// Whether these handles have these indices.
fn are_at(leaves: &mut FlattenCompose, places: &[usize]) -> bool {
    for place in places {
        match leaves.next() {
            Some(leaf) if leaf.index() == *place => {}
            _ => return false,
        }
    }
    leaves.next().is_none()
}

impl Trial for Flattening<'_> {
    fn begin(&mut self, _alloc: Global) -> Result<(), AllocError> {
        self.leaves = None;
        Ok(())
    }

    fn is_refused(&mut self, alloc: Global) -> bool {
        match leaves_of(alloc, self.composition) {
            Ok(leaves) => {
                self.leaves = leaves;
                false
            }
            Err(_) => true,
        }
    }

    fn is_right(&mut self, refused: bool) -> bool {
        match self.leaves.take() {
            Some(mut leaves) => freeing(!refused && are_at(&mut leaves, self.expected), leaves),
            None => refused,
        }
    }
}

/// Whether a composition fails more often than this before it gives these components.
pub fn is_composition_refused(
    alloc: Global,
    composition: &Composition<'_>,
    expected: &[usize],
    least: usize,
) -> Result<Option<bool>, AllocError> {
    let steps = Steps {
        most: 300,
        more: 8,
        spare: 0,
    };
    let mut flattening = Flattening {
        composition,
        expected,
        leaves: None,
    };
    freeing(
        is_refused_more_than(alloc, least, steps, &mut flattening),
        flattening,
    )
}
