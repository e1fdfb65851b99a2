//! Uses of global variables, one for each in order.

ghost use Rattle.std.specs.Prelude.{◌≡◌, ◌≤◌, ◌↔◌, false, IfNone, IfSome, IsTrue, Some, length, slice_index_or};
ghost use Rattle.ir_flags.specs.Sets.{Has};
ghost use Rattle.typing_infos.specs.Infos.{joined_use, marked, with_uses, Dominates, IsFirstUsed, NoneUsed};
ghost use Rattle.spec_expressions.specs.judged.Summaries.{no_use};

use bitflags::Flags;
use ir_arena::handle::Handle;
use ir_types::key;
use spec_expressions::GlobalUse;

// The union of two uses.
fn joined(kind: GlobalUse, more: GlobalUse) -> GlobalUse
    ensures { result ≡ joined_use kind more.0 }
{
    kind.union(more)
}

/// Adds a use to the global variable at this index. If there is none, nothing changes.
pub fn mark_at(uses: &mut Vec<GlobalUse>, index: usize, kind: GlobalUse)
    ensures { uses.new.items ≡ marked uses.old.items (Some index) kind.0 }
{
    if index < uses.len() {
        uses[index] = joined(uses[index], kind);
    }
}

// Adds uses of global variables.
pub(crate) fn mark_all(
    uses: &mut Vec<GlobalUse>,
    noted: &[(Handle<key::GlobalVariable>, GlobalUse)],
)
    ensures { uses.new.items ≡ with_uses uses.old.items noted.now }
{
    for more in noted {
        mark_at(uses, more.0.index(), more.1);
    }
}

// The use at an index, or the empty use.
fn use_at(uses: &[GlobalUse], index: usize) -> GlobalUse
    ensures { result ≡ slice_index_or uses.now index no_use }
{
    match uses.get(index) {
        Some(kind) => *kind,
        None => GlobalUse(0),
    }
}

// Whether the one use has each bit of the other.
fn includes(kind: GlobalUse, other: GlobalUse) -> bool
    ensures { IsTrue result ↔ Has kind.0 other.0 }
{
    kind.contains(other)
}

// Whether each use includes the other's use of the same global variable.
pub(crate) fn dominates(uses: &[GlobalUse], others: &[GlobalUse]) -> bool
    ensures { IsTrue result ↔ Dominates uses.now others.now }
{
    for index in 0..others.len() {
        if !includes(use_at(uses, index), others[index]) {
            return false;
        }
    }
    true
}

/// The number of uses that are looked at together.
const RUN: usize = 64;

// Whether one of these has a use. The loop is written so that it can be vectorized: each is read, and none is out of bounds.
fn has_use(uses: &[GlobalUse]) -> bool
    ensures { result ≡ false → NoneUsed uses.now 0 (length uses.now) }
{
    let mut some = false;
    for index in 0..uses.len() {
        let used = uses[index].0 != 0;
        some = some || used;
    }
    some
}

// Where to look on for the first use of a range: nowhere before it is one.
fn after_empty_runs(uses: &[GlobalUse], from: usize, end: usize) -> usize
    requires { end ≤ length uses.now }
    ensures reached { from ≤ result }
    ensures none { NoneUsed uses.now from result }
{
    let mut place = from;
    while end.saturating_sub(place) >= RUN {
        if has_use(&uses[place..place + RUN]) {
            return place;
        }
        place += RUN;
    }
    place
}

/// The first global variable of a range that has a use, if one has. Those without one are looked at 64 at a time.
pub fn first_used(uses: &[GlobalUse], from: usize, end: usize) -> Option<usize>
    requires { end ≤ length uses.now }
    ensures none { IfNone result (NoneUsed uses.now from end) }
    ensures some { IfSome result (IsFirstUsed uses.now from end) }
{
    if from < end && uses[from].0 != 0 {
        return Some(from);
    }
    for index in after_empty_runs(uses, from, end)..end {
        if uses[index].0 != 0 {
            return Some(index);
        }
    }
    None
}
