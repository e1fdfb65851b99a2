//! Lists of distinct pairs.

ghost use Rattle.std.specs.Prelude.{◌≡◌, ◌++◌, [], IfOk, IsTrue, OnOk};
ghost use Rattle.indexmap.specs.IndexSet.{insert_key};
ghost use Rattle.spec_expressions.specs.judged.Pairs.{pair_eq};
ghost use Rattle.typing_infos.specs.Marks.{EachOnce};
ghost use Rattle.typing_summaries.specs.Fronts.{BeginsWith};

use spec_expressions::SamplingPair;
use std::alloc::{AllocError, Global};
use typing_infos::{PairSet, SampledPairs};

/// Distinct pairs in the order of insertion. The first few are a plain list, or a table shared with a callee;
/// only the later ones are looked up in this list's own table: most functions sample few pairs, and building a
/// table is expensive.
#[derive(Drop)]
pub struct PairList {
    few: SampledPairs,
    more: PairSet,
    ghost once: { EachOnce (few.items ++ more) },
}

// Appends these values. The error is out of memory.
fn append<T: Copy + Drop>(values: &mut Vec<T>, others: &[T]) -> Result<(), AllocError>
    ensures { OnOk result (values.new.items ≡ values.old.items ++ others.now) }
{
    for value in others {
        values.push(*value)?;
    }
    Ok(())
}

// Whether a slice begins with another.
fn begins_with<T: Copy + PartialEq>(values: &[T], others: &[T]) -> bool
    ensures { IsTrue result → BeginsWith T.eq values.now others.now }
{
    if values.len() < others.len() {
        return false;
    }
    for index in 0..others.len() {
        let same = others[index] == values[index];
        if !same {
            return false;
        }
    }
    true
}

impl PairList {
    ghost use Rattle.typing_summaries.specs.Listed.{listed};

    /// No pairs.
    pub fn new(alloc: Global) -> PairList
        ensures { listed result ≡ [] }
    {
        PairList {
            few: SampledPairs::new(alloc),
            more: PairSet::new(alloc),
        }
    }

    // These distinct pairs, shared with another function.
    pub(crate) fn shared(alloc: Global, pairs: SampledPairs) -> PairList
        requires { EachOnce pairs.items }
        ensures { listed result ≡ pairs.items }
    {
        PairList {
            few: pairs,
            more: PairSet::new(alloc),
        }
    }

    // The allocator of the list.
    pub(crate) fn allocator(&self) -> Global {
        self.more.allocator()
    }

    // Whether these begin with all pairs of the list.
    pub(crate) fn is_front_of(&self, pairs: &[SamplingPair]) -> bool
        ensures { IsTrue result → BeginsWith pair_eq pairs.now (listed self.now) }
    {
        let few = self.few.as_slice();
        if pairs.len() < few.len() {
            return false;
        }
        let (front, behind) = pairs.split_at(few.len());
        begins_with(front, few) && begins_with(behind, self.more.as_slice())
    }

    // Whether the list begins with these, if it is shared with another function.
    pub(crate) fn begins_with(&self, pairs: &[SamplingPair]) -> bool
        ensures { IsTrue result → BeginsWith pair_eq (listed self.now) pairs.now }
    {
        begins_with(self.few.as_slice(), pairs)
    }

    /// Inserts a pair, if it is not contained. The error is out of memory.
    #[tactic(auto, using(crate::proofs::Listing::there, crate::proofs::Listing::first, crate::proofs::Listing::later))]
    pub fn insert(&mut self, pair: SamplingPair) -> Result<(), AllocError>
        ensures { OnOk result (listed self.new ≡ insert_key pair_eq (listed self.old) pair) }
    {
        if self.few.contains(&pair) {
            return Ok(());
        }
        if !self.more.is_empty() {
            return self.more.insert(pair);
        }
        if self.few.push_few(pair)? {
            return Ok(());
        }
        self.more.insert(pair)
    }

    /// All pairs. The error is out of memory.
    pub fn into_pairs(self) -> Result<SampledPairs, AllocError>
        ensures { IfOk result (λ pairs. pairs.items ≡ listed self) }
    {
        let alloc = self.allocator();
        let PairList { few, more } = self;
        if more.is_empty() {
            return Ok(few);
        }
        let mut pairs = Vec::with_capacity(alloc, few.len().saturating_add(more.len()))?;
        append(&mut pairs, few.as_slice())?;
        append(&mut pairs, more.as_slice())?;
        SampledPairs::of_pairs(alloc, pairs)
    }
}
