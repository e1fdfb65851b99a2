//! Which expressions of a function are in scope everywhere.

ghost use Rattle.std.specs.Prelude.{ℕ, IfOk, All, Contains};
ghost use Rattle.std.specs.Bool.{MatchBool};
ghost use Rattle.ir_arena.specs.judged.Handles.{handles_between};
ghost use Rattle.ir_items.specs.found.View.{function_view};
ghost use Rattle.function_body_checks.specs.Always.{AreAlways};
ghost use Rattle.spec_statements.specs.judged.Scope.{PreEmitted};

use crate::operands::is_always_known;
use ir_arena::handle::Handle;
use ir_arena::range::Range;
use ir_items::{Function, key};
use ir_sets::next::{PlaceTest, first_passing, next_passing};
use std::alloc::{AllocError, Global};

// Whether an expression of a function is in scope everywhere.
#[derive(Drop)]
struct AlwaysKnown<'a> {
    function: &'a Function,
}

impl PlaceTest for AlwaysKnown<'_> {
    ghost use Rattle.ir_items.specs.found.View.{function_view};
    ghost use Rattle.function_body_checks.specs.Always.{always_in};

    ghost passes = { λ t. always_in (function_view t.function.now) };

    fn passes(&self, place: usize) -> bool {
        is_always_known(self.function, Handle::at(place))
    }
}

// For each expression of a function the first one, from it on, that is in scope everywhere. The error is out of memory.
pub(crate) fn next_always(alloc: Global, function: &Function) -> Result<Vec<u32>, AllocError>
    ensures { IfOk result (λ next. AreAlways (function_view function.now) next.items) }
{
    let test = AlwaysKnown { function };
    next_passing(alloc, function.expressions.len(), &test)
}

/// A function, with what is computed once for its whole body.
#[derive(Drop)]
pub struct Outline<'a> {
    /// The function.
    pub function: &'a Function,
    /// Whether results of statements are required.
    pub asked: bool,
    /// For each of its expressions the first from it on that is in scope everywhere.
    pub always: &'a [u32],
    ghost found: { AreAlways (function_view function.now) always.now },
}

// Whether an expression of a range is in scope everywhere.
pub(crate) fn has_always(outline: &Outline<'_>, range: Range<key::Expression>) -> bool
    ensures { MatchBool result
        ((e : ℕ) × Contains (handles_between range) e × PreEmitted (function_view outline.now.function.now) e)
        (All (λ e. ¬ PreEmitted (function_view outline.now.function.now) e) (handles_between range)) }
{
    let bounds = range.index_range();
    first_passing(outline.always, bounds.start as usize, bounds.end as usize).is_some()
}
