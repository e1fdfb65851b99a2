// The kinds of expressions.
ghost use Rattle.std.specs.Prelude.{◌<◌, ◌≤◌, length};

use ir_arena::arena::Arena;
use ir_arena::handle::Handle;
use ir_items::{Expression, Module, key};
use std::alloc::{AllocError, Global};
use test_support::call::{completed, freeing};
use typing_layout::{ExpressionKindTracker, origins_precede};

// A letter for the kind of an expression.
fn letter(tracker: &ExpressionKindTracker, handle: Handle<key::Expression>) -> &'static str
    requires { handle < length tracker.now }
{
    if tracker.is_const(handle) {
        return "c";
    }
    if tracker.is_const_or_override(handle) {
        return "o";
    }
    "r"
}

// Prints a letter for each of the first expressions.
fn tell_letters(
    told: &mut String,
    tracker: &ExpressionKindTracker,
    count: usize,
) -> Result<(), AllocError>
    requires all { count ≤ length tracker.now }
    requires in_range { count ≤ 4294967295 }
{
    for place in 0..count {
        told.push_str(letter(tracker, Handle::at(place)))?;
    }
    told.push_str(";")
}

// Prints the kinds of the expressions of an arena.
fn tell_arena(
    alloc: Global,
    told: &mut String,
    arena: &Arena<Expression, key::Expression>,
) -> Result<(), AllocError> {
    if !origins_precede(arena) {
        return told.push_str("operands do not precede");
    }
    let tracker = ExpressionKindTracker::from_arena(alloc, arena)?;
    freeing(tell_letters(told, &tracker, arena.len()), tracker)
}

// Prints the kinds of all expressions of a module.
fn tell_kinds(alloc: Global, told: &mut String, module: &Module) -> Result<(), AllocError> {
    tell_arena(alloc, told, &module.global_expressions)?;
    for (_, function) in module.functions.iter() {
        tell_arena(alloc, told, &function.expressions)?;
    }
    for entry in module.entry_points.as_slice() {
        tell_arena(alloc, told, &entry.function.expressions)?;
    }
    Ok(())
}

/// The kinds of the global expressions, and of those of each function and each entry point.
pub fn kinds_told(alloc: Global, module: &Module) -> Result<String, AllocError> {
    let mut told = String::new(alloc);
    completed(tell_kinds(alloc, &mut told, module), told)
}

/// Whether the kinds of the expressions of each function can be found, as a word.
pub fn tracked(alloc: Global, module: &Module) -> Result<&'static str, AllocError> {
    for (_, function) in module.functions.iter() {
        if !origins_precede(&function.expressions) {
            return Ok("not tracked");
        }
        drop(ExpressionKindTracker::from_arena(alloc, &function.expressions)?);
    }
    Ok("tracked")
}
