//! Sets of numbers with fast insertion of ranges.

ghost use Rattle.std.specs.Prelude.{◌≡◌, ℕ, ◌+◌, ◌*◌, ◌/◌, ◌^◌, ◌<◌, ◌≤◌, true, false, length, OnOk, OnErr};
ghost use Rattle.std.specs.Bool.{MatchBool};
ghost use Rattle.std.specs.FinSet as set;
ghost use Rattle.ir_sets.specs.Bits.{has_bit, Becomes, NoneBetween, SomeBetween};
ghost use Rattle.ir_sets.specs.Ranges.{counts, has_number, AreFilled, AreFilledBut, AreRanges, ChangesAt};

use crate::bits;
use std::alloc::{AllocError, Global};
use std::marker::Model;

/// A set of numbers, a bit for each in words of 64, with two more bits for each word: whether the word is valid, and whether all of
/// its numbers are members. So an insertion, a search or a removal of a range visits one word per 4096 numbers of the range. In
/// a contract it is the set of the numbers.
#[derive(Drop)]
pub struct RangeSet {
    // the bit of each number
    words: Vec<u64>,
    // a bit for each valid word; a valid word is not 0, and all others are ignored
    some: Vec<u64>,
    // a bit for each word of which all numbers are members, whether valid or not
    full: Vec<u64>,
}

impl Model for RangeSet {
    ghost use Rattle.std.specs.Ordering.{nat_cmp};
    ghost use Rattle.std.specs.FinSet as set;
    ghost use Rattle.std.specs.Coded.{coded_ℕ};
    ghost use Rattle.ir_sets.specs.Ranges.{numbers, AreRanges};

    ghost Value = { set.FinSet nat_cmp };

    ghost coded = { set.code coded_ℕ };

    ghost view = { λ s. numbers s.words.items s.some.items s.full.items };

    ghost invariant = { λ s. AreRanges s.words.items s.some.items s.full.items };
}

// Makes a word valid, with the same members.
fn begin(words: &mut [u64], some: &mut [u64], index: usize)
    requires within { index < length words.old }
    requires within_some { index < 64 * length some.old }
    ensures len { length words.new ≡ length words.old }
    ensures len_of_some { length some.new ≡ length some.old }
    ensures begun { has_bit some.new index ≡ true }
    ensures changes { ChangesAt words.old some.old words.new some.new index }
    ensures same { (n : ℕ) → counts words.new some.new n ≡ counts words.old some.old n }
{
    if bits::contains(some, index) {
        return;
    }
    words[index] = 0;
    bits::insert(some, index);
}

// Inserts the numbers `from..end` of one word.
fn add_part(words: &mut [u64], some: &mut [u64], from: usize, end: usize)
    requires one_word { end ≤ (from / 64 + 1) * 64 }
    requires small { end ≤ 2 ^ 32 }
    requires room { end ≤ 64 * length words.old }
    requires room_in_some { length words.old ≤ 64 * length some.old }
    requires filled { AreFilled words.old some.old }
    ensures len { length words.new ≡ length words.old }
    ensures len_of_some { length some.new ≡ length some.old }
    ensures filled { AreFilled words.new some.new }
    ensures added { Becomes true (counts words.old some.old) (counts words.new some.new) from end }
{
    if from >= end {
        return;
    }
    begin(words, some, from / 64);
    bits::insert_between(words, from, end);
}

// Makes a full word valid, and no longer marks it as full.
fn spell(words: &mut [u64], some: &mut [u64], full: &mut [u64], index: usize)
    requires within { index < length words.old }
    requires within_some { index < 64 * length some.old }
    ensures len { length words.new ≡ length words.old }
    ensures len_of_some { length some.new ≡ length some.old }
    ensures len_of_full { length full.new ≡ length full.old }
    ensures spelled { has_bit full.new index ≡ false }
    ensures fewer_full { (m : ℕ) → has_bit full.new m ≡ true → has_bit full.old m ≡ true }
    ensures changes { ChangesAt words.old some.old words.new some.new index }
    ensures same { (n : ℕ) → has_number words.new some.new full.new n ≡ has_number words.old some.old full.old n }
{
    if !bits::contains(full, index) {
        return;
    }
    words[index] = u64::MAX;
    bits::insert(some, index);
    bits::remove(full, index);
}

// Makes a word invalid if it is 0.
fn drop_empty(words: &[u64], some: &mut [u64], index: usize)
    requires within { index < length words.now }
    requires filled { AreFilledBut words.now some.old index }
    ensures len_of_some { length some.new ≡ length some.old }
    ensures filled { AreFilled words.now some.new }
    ensures same { (n : ℕ) → counts words.now some.new n ≡ counts words.now some.old n }
{
    let word = words[index];
    if word != 0 {
        return;
    }
    bits::remove(some, index);
}

// Removes the numbers `from..end` of one word.
fn take_part(words: &mut [u64], some: &mut [u64], full: &mut [u64], from: usize, end: usize)
    requires one_word { end ≤ (from / 64 + 1) * 64 }
    requires small { end ≤ 2 ^ 32 }
    requires room { end ≤ 64 * length words.old }
    requires room_in_some { length words.old ≤ 64 * length some.old }
    requires filled { AreFilled words.old some.old }
    ensures len { length words.new ≡ length words.old }
    ensures len_of_some { length some.new ≡ length some.old }
    ensures len_of_full { length full.new ≡ length full.old }
    ensures filled { AreFilled words.new some.new }
    ensures fewer_full { (m : ℕ) → has_bit full.new m ≡ true → has_bit full.old m ≡ true }
    ensures taken { Becomes false (has_number words.old some.old full.old) (has_number words.new some.new full.new) from end }
{
    if from >= end {
        return;
    }
    spell(words, some, full, from / 64);
    bits::remove_between(words, from, end);
    drop_empty(words, some, from / 64);
}

// Whether one of the numbers `from..end` of one word is a member.
fn meets_part(words: &[u64], some: &[u64], full: &[u64], from: usize, end: usize) -> bool
    requires one_word { end ≤ (from / 64 + 1) * 64 }
    requires small { end ≤ 2 ^ 32 }
    ensures { MatchBool result (SomeBetween (has_number words.now some.now full.now) from end) (NoneBetween (has_number words.now some.now full.now) from end) }
{
    let index = from / 64;
    if from >= end {
        return false;
    }
    if bits::contains(full, index) {
        return true;
    }
    if !bits::contains(some, index) {
        return false;
    }
    bits::first_between(words, from, end).is_some()
}

// Whether one of the numbers of a range of whole words is a member.
fn meets_whole(words: &[u64], some: &[u64], full: &[u64], first: usize, last: usize) -> bool
    requires small { last ≤ 2 ^ 32 }
    requires filled { AreFilled words.now some.now }
    ensures { MatchBool result (SomeBetween (has_number words.now some.now full.now) (first * 64) (last * 64)) (NoneBetween (has_number words.now some.now full.now) (first * 64) (last * 64)) }
{
    if bits::first_between(some, first, last).is_some() {
        return true;
    }
    bits::first_between(full, first, last).is_some()
}

// Whether one of the numbers `from..end` is a member.
fn meets_all(words: &[u64], some: &[u64], full: &[u64], from: usize, end: usize) -> bool
    requires small { end ≤ 2 ^ 32 }
    requires filled { AreFilled words.now some.now }
    ensures { MatchBool result (SomeBetween (has_number words.now some.now full.now) from end) (NoneBetween (has_number words.now some.now full.now) from end) }
{
    let first = from.div_ceil(64);
    let last = end / 64;
    if last < first {
        return meets_part(words, some, full, from, end);
    }
    if meets_part(words, some, full, from, first * 64) {
        return true;
    }
    if meets_part(words, some, full, last * 64, end) {
        return true;
    }
    meets_whole(words, some, full, first, last)
}

// Inserts the numbers `from..end`.
fn add_all(words: &mut [u64], some: &mut [u64], full: &mut [u64], from: usize, end: usize)
    requires ordered { from < end }
    requires small { end ≤ 2 ^ 32 }
    requires room { end ≤ 64 * length words.old }
    requires are { AreRanges words.old some.old full.old }
    ensures len { length words.new ≡ length words.old }
    ensures len_of_some { length some.new ≡ length some.old }
    ensures len_of_full { length full.new ≡ length full.old }
    ensures are { AreRanges words.new some.new full.new }
    ensures added { Becomes true (has_number words.old some.old full.old) (has_number words.new some.new full.new) from end }
{
    let first = from.div_ceil(64);
    let last = end / 64;
    if last < first {
        add_part(words, some, from, end);
        return;
    }
    bits::insert_between(full, first, last);
    add_part(words, some, from, first * 64);
    add_part(words, some, last * 64, end);
}

// Removes the numbers `from..end`.
fn take_all(words: &mut [u64], some: &mut [u64], full: &mut [u64], from: usize, end: usize)
    requires ordered { from < end }
    requires small { end ≤ 2 ^ 32 }
    requires room { end ≤ 64 * length words.old }
    requires are { AreRanges words.old some.old full.old }
    ensures len { length words.new ≡ length words.old }
    ensures len_of_some { length some.new ≡ length some.old }
    ensures len_of_full { length full.new ≡ length full.old }
    ensures are { AreRanges words.new some.new full.new }
    ensures taken { Becomes false (has_number words.old some.old full.old) (has_number words.new some.new full.new) from end }
{
    let first = from.div_ceil(64);
    let last = end / 64;
    if last < first {
        take_part(words, some, full, from, end);
        return;
    }
    bits::remove_between(some, first, last);
    bits::remove_between(full, first, last);
    take_part(words, some, full, from, first * 64);
    take_part(words, some, full, last * 64, end);
}

// Makes room for the numbers below `end`. On out of memory, room for some of them may have been made.
fn make_room(
    words: &mut Vec<u64>,
    some: &mut Vec<u64>,
    full: &mut Vec<u64>,
    end: usize,
) -> Result<(), AllocError>
    requires small { end ≤ 2 ^ 32 }
    requires are { AreRanges words.old.items some.old.items full.old.items }
    ensures room { OnOk result (end ≤ 64 * length words.new.items) }
    ensures are { AreRanges words.new.items some.new.items full.new.items }
    ensures same { (n : ℕ) → has_number words.new.items some.new.items full.new.items n ≡ has_number words.old.items some.old.items full.old.items n }
{
    let count = end.div_ceil(64);
    bits::reserve(some, count)?;
    bits::reserve(full, count)?;
    bits::reserve(words, end)?;
    Ok(())
}

// Whether a number is a member.
#[tactic(auto, unfolding(crate::specs::Ranges::counts, crate::specs::Ranges::has_number))]
fn has(words: &[u64], some: &[u64], full: &[u64], number: usize) -> bool
    ensures { result ≡ has_number words.now some.now full.now number }
{
    let index = number / 64;
    bits::contains(full, index) || bits::contains(some, index) && bits::contains(words, number)
}

impl RangeSet {
    /// An empty set, which allocates nothing.
    pub fn new(alloc: Global) -> Self
        ensures { result ≡ set.empty }
    {
        RangeSet {
            words: Vec::new(alloc),
            some: Vec::new(alloc),
            full: Vec::new(alloc),
        }
    }

    /// Makes room for the numbers below `end`.
    ///
    /// # Errors
    ///
    /// `AllocError` on out of memory. The members are then unchanged.
    pub fn reserve(&mut self, end: usize) -> Result<(), AllocError>
        requires { end ≤ 2 ^ 32 }
        ensures { self.new ≡ self.old }
    {
        make_room(&mut self.words, &mut self.some, &mut self.full, end)
    }

    /// Whether a number is a member.
    pub fn contains(&self, number: usize) -> bool
        ensures { result ≡ set.contains self.now number }
    {
        has(&self.words, &self.some, &self.full, number)
    }

    /// Whether one of the numbers `from..end` is a member.
    pub fn meets(&self, from: usize, end: usize) -> bool
        requires { end ≤ 2 ^ 32 }
        ensures { MatchBool result (SomeBetween (set.contains self.now) from end) (NoneBetween (set.contains self.now) from end) }
    {
        meets_all(&self.words, &self.some, &self.full, from, end)
    }

    /// Inserts the numbers `from..end`.
    ///
    /// # Errors
    ///
    /// `AllocError` on out of memory. The set is then unchanged.
    pub fn insert_between(&mut self, from: usize, end: usize) -> Result<(), AllocError>
        requires { end ≤ 2 ^ 32 }
        ensures added { OnOk result (Becomes true (set.contains self.old) (set.contains self.new) from end) }
        ensures err { OnErr result (self.new ≡ self.old) }
    {
        make_room(&mut self.words, &mut self.some, &mut self.full, end)?;
        if from >= end {
            return Ok(());
        }
        add_all(&mut self.words, &mut self.some, &mut self.full, from, end);
        Ok(())
    }

    /// Removes the numbers `from..end`.
    pub fn remove_between(&mut self, from: usize, end: usize)
        requires { end ≤ 2 ^ 32 }
        ensures { Becomes false (set.contains self.old) (set.contains self.new) from end }
    {
        let within = end.min(64 * self.words.len());
        if from >= within {
            return;
        }
        take_all(
            &mut self.words,
            &mut self.some,
            &mut self.full,
            from,
            within,
        );
    }
}
