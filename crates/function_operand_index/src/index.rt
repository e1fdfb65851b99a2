//! Pairs of an operand and its user, by number.

ghost use Rattle.std.specs.Prelude.{◌≡◌, ◌⊎◌, ◌+◌, ◌<◌, ◌≤◌, ℕ, true, false, IsTrue, IsFalse, IfOk, IfNone, IfSome, OnOk, length, slice_index_or};
ghost use Rattle.std.specs.FinSet as set;
ghost use Rattle.function_operand_index.specs.Runs.{AreRuns};
ghost use Rattle.function_operand_index.specs.Index.{IsNeeded};

use crate::runs::{FAR, NEAR, Runs, count_inside, count_outside, is_outside, runs_of};
use ir_sets::range_set::RangeSet;
use std::alloc::{AllocError, Global};

/// Pairs of an operand and its user, by number, and which of the operands are missing. Operands become present by range, and
/// whether a range of users has all its operands is found without looking at the pairs one by one: the minimum and maximum of
/// each run of 64 and of 4096 pairs are kept.
#[derive(Drop)]
pub struct OperandIndex {
    /// The operands.
    pub operands: Vec<u32>,
    /// The users, in the same order.
    pub users: Vec<u32>,
    /// The indices of the pairs whose operand may be missing.
    pub lacking: RangeSet,
    by_operand: Runs,
    by_user: Runs,
    ghost operand_runs: { AreRuns operands.items by_operand },
    ghost user_runs: { AreRuns users.items by_user },
    ghost short: { length operands.items ≤ 4294967296 },
    ghost in_step: { length users.items ≡ length operands.items },
}

// Whether a pair can be skipped: its operand is present, or not one before a range of users.
fn is_free(index: &OperandIndex, place: usize, first: usize, end: usize) -> bool
    ensures free { IsTrue result → ¬ IsNeeded index.now.operands.items index.now.users.items index.now.lacking first end place }
    ensures needed { IsFalse result → place < length index.now.operands.items → IsNeeded index.now.operands.items index.now.users.items index.now.lacking first end place }
{
    if !index.lacking.contains(place) {
        return true;
    }
    let Some(operand) = index.operands.get(place) else {
        return true;
    };
    let Some(user) = index.users.get(place) else {
        return true;
    };
    let user = *user as usize;
    user < first || end <= user || first <= *operand as usize
}

// Whether a run of pairs can be skipped, as far as its minimum and maximum tell.
fn is_near_free(index: &OperandIndex, place: usize, first: usize, end: usize) -> bool
    ensures { IsTrue result → (k : ℕ) → place ≤ k → k < place + 64 → ¬ IsNeeded index.now.operands.items index.now.users.items index.now.lacking first end k }
{
    if place % NEAR != 0 || index.operands.len() <= place {
        return false;
    }
    let run = place / NEAR;
    let next = index.operands.len().min(place + NEAR);
    !index.lacking.meets(place, next)
        || is_outside(&index.by_user.lows, &index.by_user.highs, run, first, end)
        || is_outside(
            &index.by_operand.lows,
            &index.by_operand.highs,
            run,
            0,
            first,
        )
}

// The same for a long run.
fn is_far_free(index: &OperandIndex, place: usize, first: usize, end: usize) -> bool
    ensures { IsTrue result → (k : ℕ) → place ≤ k → k < place + 4096 → ¬ IsNeeded index.now.operands.items index.now.users.items index.now.lacking first end k }
{
    if place % FAR != 0 || index.operands.len() <= place {
        return false;
    }
    let run = place / FAR;
    let next = index.operands.len().min(place + FAR);
    !index.lacking.meets(place, next)
        || is_outside(
            &index.by_user.far_lows,
            &index.by_user.far_highs,
            run,
            first,
            end,
        )
        || is_outside(
            &index.by_operand.far_lows,
            &index.by_operand.far_highs,
            run,
            0,
            first,
        )
}

// The number of pairs from an index on that are known to be skippable in one step.
fn count_free(index: &OperandIndex, place: usize, first: usize, end: usize) -> usize
    ensures few { result ≤ 4096 }
    ensures free { (k : ℕ) → place ≤ k → k < place + result → ¬ IsNeeded index.now.operands.items index.now.users.items index.now.lacking first end k }
    ensures needed { result ≡ 0 → place < length index.now.operands.items → IsNeeded index.now.operands.items index.now.users.items index.now.lacking first end place }
{
    if is_far_free(index, place, first, end) {
        return FAR;
    }
    if is_near_free(index, place, first, end) {
        return NEAR;
    }
    if is_free(index, place, first, end) {
        1
    } else {
        0
    }
}

impl OperandIndex {
    /// The index of pairs whose operands are all missing. The error is out of memory.
    pub fn new(
        alloc: Global,
        operands: Vec<u32>,
        users: Vec<u32>,
    ) -> Result<OperandIndex, AllocError>
        requires short { length operands.items ≤ 4294967296 }
        requires in_step { length users.items ≡ length operands.items }
        ensures operands { IfOk result (λ i. i.operands.items ≡ operands.items) }
        ensures users { IfOk result (λ i. i.users.items ≡ users.items) }
        ensures lacking { IfOk result (λ i. (k : ℕ) → k < length operands.items → set.contains i.lacking k ≡ true) }
    {
        let by_operand = runs_of(alloc, &operands)?;
        let by_user = runs_of(alloc, &users)?;
        let mut lacking = RangeSet::new(alloc);
        lacking.insert_between(0, operands.len())?;
        Ok(OperandIndex {
            operands,
            users,
            lacking,
            by_operand,
            by_user,
        })
    }

    /// Makes the operands of a range present: no pair misses one of them any more, and all others are unchanged.
    pub fn add(&mut self, from: usize, end: usize)
        ensures operands { self.new.operands.items ≡ self.old.operands.items }
        ensures users { self.new.users.items ≡ self.old.users.items }
        ensures there { (k : ℕ) → k < length self.old.operands.items → set.contains self.new.lacking k ≡ false
            → (set.contains self.old.lacking k ≡ false) ⊎ ((from ≤ slice_index_or self.old.operands.items k 0) × (slice_index_or self.old.operands.items k 0 < end)) }
        ensures kept { (k : ℕ) → set.contains self.old.lacking k ≡ true → (from ≤ slice_index_or self.old.operands.items k 0 → slice_index_or self.old.operands.items k 0 < end → ⊥) → set.contains self.new.lacking k ≡ true }
        ensures fewer { (k : ℕ) → set.contains self.old.lacking k ≡ false → set.contains self.new.lacking k ≡ false }
        ensures come { (k : ℕ) → k < length self.old.operands.items → from ≤ slice_index_or self.old.operands.items k 0 → slice_index_or self.old.operands.items k 0 < end → set.contains self.new.lacking k ≡ false }
    {
        let count = self.operands.len();
        let mut place = 0;
        while place < count {
            let inside = count_inside(&self.operands, &self.by_operand, place, from, end);
            let next = count.min(place + inside);
            self.lacking.remove_between(place, next);
            let outside = count_outside(&self.operands, &self.by_operand, next, from, end);
            place = (next + outside).max(place + 1);
        }
    }

    /// Makes the operands of a range missing: all their pairs miss them, and all others are unchanged.
    ///
    /// # Errors
    ///
    /// `AllocError` if out of memory. Only some pairs of these operands may miss them then.
    pub fn remove(&mut self, from: usize, end: usize) -> Result<(), AllocError>
        ensures operands { self.new.operands.items ≡ self.old.operands.items }
        ensures users { self.new.users.items ≡ self.old.users.items }
        ensures left { OnOk result ((k : ℕ) → k < length self.old.operands.items → set.contains self.new.lacking k ≡ false
            → (set.contains self.old.lacking k ≡ false) × (from ≤ slice_index_or self.old.operands.items k 0 → slice_index_or self.old.operands.items k 0 < end → ⊥)) }
        ensures kept { (k : ℕ) → set.contains self.old.lacking k ≡ true → set.contains self.new.lacking k ≡ true }
        ensures others { (k : ℕ) → set.contains self.new.lacking k ≡ true → (from ≤ slice_index_or self.old.operands.items k 0 → slice_index_or self.old.operands.items k 0 < end → ⊥) → set.contains self.old.lacking k ≡ true }
    {
        let count = self.operands.len();
        let mut place = 0;
        while place < count {
            let outside = count_outside(&self.operands, &self.by_operand, place, from, end);
            let begin = count.min(place + outside);
            let inside = count_inside(&self.operands, &self.by_operand, begin, from, end);
            let next = count.min(begin + inside.max(1_usize.saturating_sub(outside)));
            self.lacking.insert_between(begin, next)?;
            place = next;
        }
        Ok(())
    }

    /// The operand of a pair whose user is in a range and whose operand is before the range and may be missing, if there is
    /// such a pair.
    pub fn first_needed(&self, first: usize, end: usize) -> Option<usize>
        ensures none { IfNone result ((k : ℕ) → ¬ IsNeeded self.now.operands.items self.now.users.items self.now.lacking first end k) }
        ensures some { IfSome result (λ operand. (k : ℕ) × IsNeeded self.now.operands.items self.now.users.items self.now.lacking first end k × (operand ≡ slice_index_or self.now.operands.items k 0)) }
    {
        let mut place = 0;
        while place < self.operands.len() {
            let free = count_free(self, place, first, end);
            if free == 0 {
                return Some(self.operands[place] as usize);
            }
            place += free;
        }
        None
    }
}
