//! Distinct expressions in the order of insertion.

ghost use Rattle.std.specs.Prelude.{◌≡◌, ◌+◌, ◌-◌, ◌<◌, ◌≤◌, ◌↔◌, ℕ, [], IsTrue, IfOk, Contains, length, take};
ghost use Rattle.ir_arena.specs.judged.Handles.{handles_between};
ghost use Rattle.function_body_checks.specs.Lists.{listed, AreListed, IsAdded, AreAdded};

use ir_arena::handle::Handle;
use ir_arena::range::Range;
use ir_sets::range_set::RangeSet;
use ir_types::key;
use std::alloc::{AllocError, Global};
use std::marker::Model;

/// Distinct expressions of a function in the order of insertion. They are inserted one by one or by range, and kept as ranges
/// beside a set of all: membership is tested without a search, and the last ones are removed range by range. In contracts it is
/// the list of their handles.
#[derive(Drop)]
pub struct ExpressionList {
    members: RangeSet,
    ranges: Vec<Range<key::Expression>>,
    count: usize,
}

impl Model for ExpressionList {
    ghost use Rattle.std.specs.Prelude.{ℕ, List};
    ghost use Rattle.std.specs.Coded.{coded_list, coded_ℕ};
    ghost use Rattle.function_body_checks.specs.Lists.{listed, AreListed};

    ghost Value = { List ℕ };

    ghost coded = { coded_list coded_ℕ };

    ghost view = { λ l. listed l.ranges.items };

    ghost invariant = { λ l. AreListed l.members l.ranges.items l.count };
}

// Frees the last range, or its part beyond this count, and returns how many are left.
fn cut_last(
    members: &mut RangeSet,
    ranges: &mut Vec<Range<key::Expression>>,
    count: usize,
    wanted: usize,
) -> usize
    requires listed { AreListed members.old ranges.old.items count }
    requires more { wanted < count }
    ensures listed { AreListed members.new ranges.new.items result }
    ensures cut { listed ranges.new.items ≡ take result (listed ranges.old.items) }
    ensures reached { wanted ≤ result }
    ensures less { length ranges.new.items + (result - wanted) < length ranges.old.items + (count - wanted) }
{
    let Some(range) = ranges.pop() else {
        return count;
    };
    let bounds = range.index_range();
    let (first, end) = (bounds.start, bounds.end);
    let before = count - end.saturating_sub(first) as usize;
    let kept = wanted.saturating_sub(before) as u32;
    members.remove_between((first + kept) as usize, end as usize);
    if kept == 0 {
        return before;
    }
    ranges.push_reserved(Range::new(first, first + kept));
    wanted
}

impl ExpressionList {
    /// An empty list with this capacity. The error is out of memory.
    pub fn new(alloc: Global, count: usize) -> Result<ExpressionList, AllocError>
        ensures { IfOk result (λ l. l ≡ []) }
    {
        let mut members = RangeSet::new(alloc);
        members.reserve(count.min(u32::MAX as usize))?;
        Ok(ExpressionList {
            members,
            ranges: Vec::new(alloc),
            count: 0,
        })
    }

    /// The number of expressions.
    pub fn len(&self) -> usize
        ensures { result ≡ length self.now }
    {
        self.count
    }

    /// Whether the expression is contained.
    pub fn contains(&self, handle: Handle<key::Expression>) -> bool
        ensures { IsTrue result ↔ Contains self.now handle }
    {
        self.members.contains(handle.index())
    }

    /// Inserts an expression, and returns whether it was not contained. The error is out of memory.
    pub fn insert(&mut self, handle: Handle<key::Expression>) -> Result<bool, AllocError>
        ensures { IfOk result (IsAdded self.old self.new handle) }
    {
        self.insert_range(Range::new_from_bounds(handle, handle))
    }

    /// Inserts a range of expressions if none is contained, and returns whether it did. The error is out of memory.
    pub fn insert_range(&mut self, range: Range<key::Expression>) -> Result<bool, AllocError>
        ensures { IfOk result (AreAdded self.old self.new (handles_between range)) }
    {
        let bounds = range.index_range();
        let (first, end) = (bounds.start as usize, bounds.end as usize);
        if self.members.meets(first, end) {
            return Ok(false);
        }
        self.ranges.reserve(1)?;
        self.members.insert_between(first, end)?;
        self.ranges.push_reserved(range);
        self.count += end.saturating_sub(first);
        Ok(true)
    }

    /// Drops all but the first `count`.
    pub fn cut(&mut self, count: usize)
        ensures { self.new ≡ take count self.old }
    {
        while self.count > count {
            self.count = cut_last(&mut self.members, &mut self.ranges, self.count, count);
        }
    }
}
