//! Whether the operands of a range are in scope, without looking at each of its expressions.
//!
//! A range may be emitted repeatedly, each time with all operands before it in scope. If a body emits far more expressions than
//! there are, all operands of the function are put into an index beside their users, which is updated range by range as they
//! enter and leave the scope. Whether the expressions of a range miss an operand before it is then found by the runs of the
//! index: one look at each run of 4096 pairs and, where a bound of the range cuts one, at its runs of 64 and at their pairs.
//! That is less than a look at each expression of the range, and not constant: whether each of many subsets is contained in
//! each of many others is as hard as whether a graph has a triangle, and documents can encode it. The error of a range is found
//! expression by expression.

ghost use Rattle.std.specs.Prelude.{◌≡◌, ◌++◌, ◌+◌, ◌-◌, ◌<◌, ◌≤◌, ℕ, List, IsTrue, length, take};
ghost use Rattle.ir_arena.specs.judged.Handles.{handles_between};
ghost use Rattle.ir_items.specs.judged.Plain.{PlainFunction};
ghost use Rattle.function_strict_scope.specs.Live.{Follows};
ghost use Rattle.function_strict_scope.specs.Walked.{EachKnown};

use function_body_checks::ExpressionList;
use function_operand_index::index::OperandIndex;
use ir_arena::range::Range;
use ir_types::key;
use std::alloc::Global;

/// An index of the operands of a function's expressions, by whether they are in scope.
#[derive(Drop)]
pub struct LiveOperands {
    /// Whether all operands are in the index; if not, it decides nothing.
    pub whole: bool,
    /// The operands that are not in scope everywhere, each with its user.
    pub index: OperandIndex,
    /// The ranges that have entered the scope.
    pub ranges: Vec<Range<key::Expression>>,
    /// The allocator of lists.
    pub alloc: Global,
}

/// Whether the index shows that all operands before a range are in scope.
pub fn has_all(live: &LiveOperands, range: Range<key::Expression>) -> bool
    ensures { IsTrue result → (f : PlainFunction) (sure : List ℕ) → Follows f live.now sure → EachKnown f sure (handles_between range) }
{
    if !live.whole {
        return false;
    }
    let bounds = range.index_range();
    let (first, end) = (bounds.start as usize, bounds.end as usize);
    match live.index.first_needed(first, end) {
        Some(_) => false,
        None => true,
    }
}

/// Introduces a range.
#[tactic(auto, using(crate::proofs::LiveLemmas::follows_nothing))]
pub fn bring(live: &mut LiveOperands, range: Range<key::Expression>)
    ensures { (f : PlainFunction) (sure : List ℕ) → Follows f live.old sure → Follows f live.new (sure ++ handles_between range) }
{
    if !live.whole {
        return;
    }
    match live.ranges.push(range) {
        Ok(()) => {
            let bounds = range.index_range();
            live.index.add(bounds.start as usize, bounds.end as usize);
        }
        Err(_) => {
            live.whole = false;
        }
    }
}

// Removes the last range from a scope of this many expressions, of which this many stay. Returns how many are left, or that the
// index decides nothing any more.
#[tactic(auto, using(crate::proofs::LiveLemmas::follows_nothing))]
fn drop_last(live: &mut LiveOperands, many: usize, count: usize) -> usize
    requires { count < many }
    ensures reached { count ≤ result }
    ensures within { result ≤ many }
    ensures less { length live.new.ranges.items + (result - count) < length live.old.ranges.items + (many - count) }
    ensures live { (f : PlainFunction) (sure : List ℕ) → many ≡ length sure → Follows f live.old sure → Follows f live.new (take result sure) }
{
    let Some(range) = live.ranges.pop() else {
        live.whole = false;
        return count;
    };
    let bounds = range.index_range();
    let (first, end) = (bounds.start as usize, bounds.end as usize);
    let before = many.saturating_sub(end.saturating_sub(first));
    if before < count {
        live.whole = false;
        return count;
    }
    match live.index.remove(first, end) {
        Ok(()) => before,
        Err(_) => {
            live.whole = false;
            count
        }
    }
}

/// Drops all but the first `count` from scope.
pub fn cut(live: &mut LiveOperands, sure: &mut ExpressionList, count: usize)
    ensures cut { sure.new ≡ take count sure.old }
    ensures live { (f : PlainFunction) → Follows f live.old sure.old → Follows f live.new sure.new }
{
    let mut many = sure.len();
    while live.whole && many > count {
        many = drop_last(live, many, count);
    }
    sure.cut(count);
}
