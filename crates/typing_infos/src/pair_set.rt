//! Insertion-ordered sets of pairs.

ghost use Rattle.std.specs.Prelude.{◌≡◌, ◌↔◌, [], IfOk, IsTrue, OnErr, OnOk, length};
ghost use Rattle.std.specs.List.{list_any};
ghost use Rattle.spec_expressions.specs.judged.Pairs.{pair_eq};
ghost use Rattle.typing_infos.specs.Codes.{part_code, code_of, IsIndexOf};
ghost use Rattle.typing_infos.specs.Marks.{with_pair};

use spec_expressions::{GlobalOrArgument, SamplingPair};
use std::alloc::{AllocError, Global};
use std::collections::BTreeSet;
use std::marker::Model;

/// An insertion-ordered set of pairs. In a contract it is the list of the pairs.
///
/// Membership is looked up in an ordered map and not a hash map, because attacker-controlled input could force collisions.
#[derive(Drop)]
pub struct PairSet {
    pairs: Vec<SamplingPair>,
    codes: BTreeSet<(u64, u64)>,
}

impl Model for PairSet {
    ghost use Rattle.std.specs.Prelude.{List};
    ghost use Rattle.spec_expressions.specs.judged.Pairs.{SamplingPair};
    ghost use Rattle.typing_infos.specs.Codes.{IsIndexOf};

    ghost Value = { List SamplingPair };

    ghost view = { λ s. s.pairs.items };

    ghost invariant = { λ s. IsIndexOf s.codes s.pairs.items };
}

// An even number for a global variable, an odd one for an argument.
fn part_code(part: GlobalOrArgument) -> u64
    ensures { result ≡ part_code part }
{
    match part {
        GlobalOrArgument::Global(global) => 2 * global.index() as u64,
        GlobalOrArgument::Argument(number) => 2 * u64::from(number) + 1,
    }
}

/// The code of a pair, which is unique to it.
pub(crate) fn code_of(pair: SamplingPair) -> (u64, u64)
    ensures { result ≡ code_of pair }
{
    (part_code(pair.0), part_code(pair.1))
}

// The codes of these pairs. The error is out of memory.
fn codes_of(alloc: Global, pairs: &[SamplingPair]) -> Result<BTreeSet<(u64, u64)>, AllocError>
    ensures { IfOk result (λ codes. IsIndexOf codes pairs.now) }
{
    let mut codes = BTreeSet::new(alloc);
    for pair in pairs {
        match codes.insert(code_of(*pair)) {
            Ok(_) => {}
            Err(_) => return Err(AllocError),
        }
    }
    Ok(codes)
}

impl PairSet {
    /// The empty set. It allocates nothing.
    pub fn new(alloc: Global) -> PairSet
        ensures { result ≡ [] }
    {
        PairSet {
            pairs: Vec::new(alloc),
            codes: BTreeSet::new(alloc),
        }
    }

    /// These pairs. The error is out of memory.
    pub fn of_pairs(alloc: Global, pairs: Vec<SamplingPair>) -> Result<PairSet, AllocError>
        ensures { IfOk result (λ set. set ≡ pairs.items) }
    {
        let codes = codes_of(alloc, &pairs)?;
        Ok(PairSet { pairs, codes })
    }

    /// The allocator of the set.
    pub fn allocator(&self) -> Global {
        *self.pairs.allocator()
    }

    /// The pairs, in order.
    pub fn as_slice(&self) -> &[SamplingPair]
        ensures { result.now ≡ self.now }
    {
        &self.pairs
    }

    /// The number of pairs.
    pub fn len(&self) -> usize
        ensures { result ≡ length self.now }
    {
        self.pairs.len()
    }

    /// Whether the set is empty.
    pub fn is_empty(&self) -> bool
        ensures { IsTrue result ↔ (length self.now ≡ 0) }
    {
        self.pairs.is_empty()
    }

    /// Whether the set contains a pair.
    pub fn contains(&self, pair: &SamplingPair) -> bool
        ensures { result ≡ list_any (pair_eq pair.now) self.now }
    {
        self.codes.contains(&code_of(*pair))
    }

    /// Inserts a pair at the end, if it is not contained. The error is out of memory; the set is unchanged then.
    pub fn insert(&mut self, pair: SamplingPair) -> Result<(), AllocError>
        ensures added { OnOk result (self.new ≡ with_pair self.old pair) }
        ensures err { OnErr result (self.new ≡ self.old) }
    {
        if self.contains(&pair) {
            return Ok(());
        }
        self.pairs.push(pair)?;
        match self.codes.insert(code_of(pair)) {
            Ok(_) => Ok(()),
            Err(_) => {
                self.pairs.pop();
                Err(AllocError)
            }
        }
    }
}
