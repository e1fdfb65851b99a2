//! The arguments of callees with many pairs, so that each callee is merged once for equal arguments.

ghost use Rattle.std.specs.Prelude.{◌≡◌, ◌⊎◌, ◌+◌, ◌++◌, ◌∷◌, [], IfOk, IsTrue, OnOk, length, map};
ghost use Rattle.ir_types.specs.judged.ExpressionPlain.{expression_view};
ghost use Rattle.ir_items.specs.found.GlobalView.{values_of};
ghost use Rattle.typing_infos.specs.Marks.{marks_of};
ghost use Rattle.spec_expressions.specs.judged.CallChains.{global_or_argument};
ghost use Rattle.typing_summaries.specs.Parts.{part_if, parts_of, Stands, AllStand};
ghost use Rattle.typing_summaries.specs.Joined.{Holds, IsKept, IsWrong, AreJoined};
ghost use Rattle.typing_summaries.specs.Tallies.{known, paired, pass_all_up};

use crate::tally::Context;
use crate::{Expressions, Sampled, place};
use ir_arena::handle::Handle;
use ir_types::key;
use spec_expressions::{GlobalOrArgument, SamplingPair};
use std::alloc::{AllocError, Global};
use std::collections::BTreeMap;
use typing_infos::SampledPairs;

/// A callee, its table of pairs, and for each of its arguments, up to the last among the pairs, the argument passed:
/// its denotation in the caller if the argument is among the pairs, and otherwise none.
#[derive(Drop)]
pub(crate) struct Passed {
    callee: usize,
    pairs: SampledPairs,
    parts: Vec<Option<GlobalOrArgument>>,
}

/// All entries so far, and an index of them: the position for each callee and its arguments, and for the
/// digest of its table. Entries are always compared, so that correctness does not depend on digests.
#[derive(Drop)]
pub(crate) struct Joined {
    passed: Vec<Passed>,
    places: BTreeMap<Vec<u64>, usize>,
}

// Whether the entry is of this callee, or of one with this table, with these parts.
fn is_same(
    passed: &Passed,
    callee: usize,
    pairs: &[SamplingPair],
    parts: &[Option<GlobalOrArgument>],
) -> bool
    ensures { IsTrue result → (passed.now.parts.items ≡ parts.now) × ((passed.now.callee ≡ callee) ⊎ (passed.now.pairs.items ≡ pairs.now)) }
{
    if passed.parts.as_slice() != parts {
        return false;
    }
    if passed.callee == callee {
        return true;
    }
    passed.pairs.as_slice() == pairs
}

// The code of an argument.
fn number_of(part: GlobalOrArgument) -> u64 {
    match part {
        GlobalOrArgument::Global(global) => global.index() as u64,
        GlobalOrArgument::Argument(number) => (1 << 32) + u64::from(number),
    }
}

// The index key of a call, by the number of a callee or the digest of a table. The error is out of memory.
fn place_key(
    alloc: Global,
    is_digest: bool,
    number: u64,
    parts: &[Option<GlobalOrArgument>],
) -> Result<Vec<u64>, AllocError> {
    let mut key = Vec::with_capacity(alloc, parts.len().saturating_add(2))?;
    key.push(u64::from(is_digest))?;
    key.push(number)?;
    for part in parts {
        match part {
            Some(part) => key.push(number_of(*part))?,
            None => key.push(u64::MAX)?,
        }
    }
    Ok(key)
}

impl Joined {
    /// No entries.
    pub(crate) fn new(alloc: Global) -> Joined
        ensures { result.passed.items ≡ [] }
    {
        Joined {
            passed: Vec::new(alloc),
            places: BTreeMap::new(alloc),
        }
    }

    // Whether this callee, or one with this table, was called with these parts, as far as the entry at the key tells.
    fn has(
        &self,
        key: &[u64],
        callee: usize,
        pairs: &[SamplingPair],
        parts: &[Option<GlobalOrArgument>],
    ) -> bool
        ensures { IsTrue result → Holds self.now.passed.items callee pairs.now parts.now }
    {
        match self.places.get(key) {
            Some(place) => match self.passed.get(*place) {
                Some(passed) => is_same(passed, callee, pairs, parts),
                None => false,
            },
            None => false,
        }
    }

    // Indexes the last entry by a key. The error is out of memory.
    fn note_place(&mut self, key: Vec<u64>) -> Result<(), AllocError>
        ensures { self.new.passed ≡ self.old.passed }
    {
        let place = self.passed.len().saturating_sub(1);
        match self.places.insert(key, place) {
            Ok(_) => Ok(()),
            Err(_) => Err(AllocError),
        }
    }

    // Adds an entry of a callee with a table and these parts, and indexes it by two keys. The error is out of memory.
    fn note(&mut self, passed: Passed, own: Vec<u64>, alike: Vec<u64>) -> Result<(), AllocError>
        ensures { OnOk result (self.new.passed.items ≡ self.old.passed.items ++ passed ∷ []) }
    {
        self.passed.push(passed)?;
        self.note_place(own)?;
        self.note_place(alike)
    }
}

fn part_if(
    expressions: &Expressions,
    marked: bool,
    argument: Handle<key::Expression>,
) -> Option<GlobalOrArgument>
    ensures { result ≡ part_if marked (global_or_argument (map expression_view (values_of expressions.now)) argument) }
{
    if marked {
        place(expressions, argument)
    } else {
        None
    }
}

// The parts for the marked arguments. The error is out of memory.
#[tactic(auto, using(crate::proofs::PartLemmas::one_more, crate::proofs::PartLemmas::no_more))]
fn parts_of(
    alloc: Global,
    expressions: &Expressions,
    marks: &[bool],
    arguments: &[Handle<key::Expression>],
) -> Result<Vec<Option<GlobalOrArgument>>, AllocError>
    ensures { IfOk result (λ parts. parts.items ≡ parts_of (global_or_argument (map expression_view (values_of expressions.now))) marks.now arguments.now) }
{
    let count = marks.len().min(arguments.len());
    let mut parts = Vec::with_capacity(alloc, count)?;
    for index in 0..count {
        parts.push(part_if(expressions, marks[index], arguments[index]))?;
    }
    Ok(parts)
}

// Whether the argument passed denotes a part, if it is marked.
fn stands(marks: &[bool], parts: &[Option<GlobalOrArgument>], number: usize) -> bool
    ensures { IsTrue result → Stands marks.now parts.now number }
{
    match marks.get(number) {
        Some(marked) => {
            if *marked {
                match parts.get(number) {
                    Some(part) => part.is_some(),
                    None => false,
                }
            } else {
                true
            }
        }
        None => true,
    }
}

// Whether each marked argument denotes a part.
fn all_stand(marks: &[bool], parts: &[Option<GlobalOrArgument>]) -> bool
    ensures { IsTrue result → AllStand marks.now parts.now }
{
    for number in 0..marks.len() {
        if !stands(marks, parts, number) {
            return false;
        }
    }
    true
}

// Whether merging again for the same parts adds nothing: an operand is at fault already, or each marked argument denotes a part.
fn is_settled(sampled: &Sampled, marks: &[bool], parts: &[Option<GlobalOrArgument>]) -> bool
    ensures { IsTrue result → IsWrong (paired sampled.now) ⊎ AllStand marks.now parts.now }
{
    match sampled.wrong {
        Some(_) => true,
        None => all_stand(marks, parts),
    }
}

// Merges the pairs of a callee that has a table of them and marks of its arguments, with the arguments substituted,
// unless the callee, or another with its table, was merged for the same parts before: then the pairs are there, and the error,
// if any.
fn join_table(
    sampled: &mut Sampled,
    joined: &mut Joined,
    context: &Context<'_>,
    callee: usize,
    arguments: &[Handle<key::Expression>],
    pairs: &SampledPairs,
    marks: &[bool],
) -> Result<(), AllocError>
    requires kept { IsKept (known context.now) callee pairs.now.items }
    requires marked { marks.now ≡ marks_of pairs.now.items }
    requires joined { AreJoined (known context.now) joined.old.passed.items (paired sampled.old).pairs }
    ensures pairs { OnOk result (paired sampled.new ≡ pass_all_up (known context.now).expressions arguments.now pairs.now.items (paired sampled.old)) }
    ensures joined { OnOk result (AreJoined (known context.now) joined.new.passed.items (paired sampled.new).pairs) }
{
    let alloc = *joined.passed.allocator();
    let parts = parts_of(alloc, context.expressions, marks, arguments)?;
    let settled = is_settled(sampled, marks, &parts);
    let own = place_key(alloc, false, callee as u64, &parts)?;
    if settled && joined.has(&own, callee, pairs.as_slice(), &parts) {
        return Ok(());
    }
    let alike = place_key(alloc, true, pairs.digest(), &parts)?;
    if settled && joined.has(&alike, callee, pairs.as_slice(), &parts) {
        let pairs = pairs.share()?;
        let passed = Passed {
            callee,
            pairs,
            parts,
        };
        return joined.note(passed, own, alike);
    }
    sampled.join(context.expressions, arguments, pairs)?;
    let pairs = pairs.share()?;
    let passed = Passed {
        callee,
        pairs,
        parts,
    };
    joined.note(passed, own, alike)
}

/// Merges the pairs of a callee, with the arguments substituted. A few pairs are looked up at each call; a table
/// is merged once for each list of parts, whatever callees share it. The error is out of memory.
pub(crate) fn join_pairs(
    sampled: &mut Sampled,
    joined: &mut Joined,
    context: &Context<'_>,
    callee: usize,
    arguments: &[Handle<key::Expression>],
    pairs: &SampledPairs,
) -> Result<(), AllocError>
    requires kept { IsKept (known context.now) callee pairs.now.items }
    requires joined { AreJoined (known context.now) joined.old.passed.items (paired sampled.old).pairs }
    ensures pairs { OnOk result (paired sampled.new ≡ pass_all_up (known context.now).expressions arguments.now pairs.now.items (paired sampled.old)) }
    ensures joined { OnOk result (AreJoined (known context.now) joined.new.passed.items (paired sampled.new).pairs) }
{
    match pairs.marks() {
        Some(marks) => join_table(sampled, joined, context, callee, arguments, pairs, marks),
        None => {
            sampled.pass_all_up(context.expressions, arguments, pairs.as_slice())?;
            Ok(())
        }
    }
}
