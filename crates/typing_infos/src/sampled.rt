//! The pairs that a function samples, in shared memory.

ghost use Rattle.std.specs.Prelude.{◌≡◌, ◌↔◌, ◌++◌, ◌∷◌, [], IfOk, IfSome, IsTrue, OnErr, OnOk, if◌then◌else◌, length};
ghost use Rattle.std.proofs.Props.{props};
ghost use Rattle.std.specs.List.{list_any};
ghost use Rattle.spec_expressions.specs.judged.Pairs.{pair_eq};
ghost use Rattle.typing_infos.specs.Keys.{AreKeys};
ghost use Rattle.typing_infos.specs.Marks.{EachOnce, marks_of};

use crate::keys::keys_of;
use crate::marks::marks_of;
use crate::pair_set::{PairSet, code_of};
use spec_expressions::{SamplingKey, SamplingPair};
use std::alloc::{AllocError, Global};
use std::hash::{DefaultHasher, Hasher};
use std::marker::Model;
use std::rc::Rc;

/// Up to this many pairs are a list owned by each function; more are a table that functions share.
pub const FEW: usize = 8;

// A table of many pairs, each once; the pairs of two global variables, sorted; for each argument whether a pair
// contains it; and a digest of the table.
#[derive(Drop)]
struct PairTable {
    pairs: PairSet,
    keys: Vec<SamplingKey>,
    marks: Vec<bool>,
    digest: u64,
    ghost once: { EachOnce pairs },
    ghost keyed: { AreKeys pairs keys.items } by { Prim.hlevel props },
    ghost marked: { marks.items ≡ marks_of pairs },
}

// A function's pairs.
#[derive(Drop)]
enum StoredPairs {
    Few(Vec<SamplingPair>),
    Many(Rc<PairTable>),
}

// The pairs of two global variables.
#[derive(Drop)]
enum StoredKeys {
    Few(Vec<SamplingKey>),
    Many(Rc<PairTable>),
}

#[derive(Drop)]
struct Pairs {
    held: StoredPairs,
}

impl Model for Pairs {
    ghost use Rattle.std.specs.Prelude.{List};
    ghost use Rattle.spec_expressions.specs.judged.Pairs.{SamplingPair};

    ghost Value = { List SamplingPair };

    ghost use Rattle.typing_infos.specs.Stored.{pairs_stored};

    ghost view = { λ p. pairs_stored p.held };
}

#[derive(Drop)]
struct Keys {
    held: StoredKeys,
}

impl Model for Keys {
    ghost use Rattle.std.specs.Prelude.{List};
    ghost use Rattle.spec_expressions.specs.declared.sampling.SamplingKey.{SamplingKey};

    ghost Value = { List SamplingKey };

    ghost use Rattle.typing_infos.specs.Stored.{keys_stored};

    ghost view = { λ k. keys_stored k.held };
}

/// The pairs of images and samplers of a function, in the order of insertion. Many pairs are one table that
/// functions share.
#[derive(Drop)]
pub struct SampledPairs {
    items: Pairs,
}

/// The pairs of two global variables, sorted by image and then by sampler, each once; shared in the same way.
#[derive(Drop)]
pub struct SampledKeys {
    items: Keys,
}

// Appends these values. The error is out of memory.
fn append<T: Copy + Drop>(values: &mut Vec<T>, others: &[T]) -> Result<(), AllocError>
    ensures { OnOk result (values.new.items ≡ values.old.items ++ others.now) }
{
    for value in others {
        values.push(*value)?;
    }
    Ok(())
}

// A copy. The error is out of memory.
fn copied<T: Copy + Drop>(values: &Vec<T>) -> Result<Vec<T>, AllocError>
    ensures { IfOk result (λ copy. copy.items ≡ values.now.items) }
{
    let mut copy = Vec::new(*values.allocator());
    append(&mut copy, values)?;
    Ok(copy)
}

// Whether a slice contains a value.
fn holds<T: PartialEq>(values: &[T], value: &T) -> bool
    ensures { result ≡ list_any (T.eq value.now) values.now }
{
    for held in values {
        if *value == *held {
            return true;
        }
    }
    false
}

// The digest of the codes of these pairs.
fn digest_of(pairs: &[SamplingPair]) -> u64 {
    let mut state = DefaultHasher::new();
    for pair in pairs {
        let code = code_of(*pair);
        state.write_u64(code.0);
        state.write_u64(code.1);
    }
    state.finish()
}

impl PairTable {
    fn as_slice(&self) -> &[SamplingPair]
        ensures { result.now ≡ self.now.pairs }
    {
        self.pairs.as_slice()
    }

    fn keys(&self) -> &[SamplingKey]
        ensures { result.now ≡ self.now.keys.items }
    {
        &self.keys
    }

    fn marks(&self) -> &[bool]
        ensures marked { result.now ≡ marks_of self.now.pairs }
        ensures once { EachOnce self.now.pairs }
    {
        &self.marks
    }

    fn contains(&self, pair: &SamplingPair) -> bool
        ensures { result ≡ list_any (pair_eq pair.now) self.now.pairs }
    {
        self.pairs.contains(pair)
    }
}

impl Pairs {
    fn as_slice(&self) -> &[SamplingPair]
        ensures { result.now ≡ self.now }
    {
        match &self.held {
            StoredPairs::Few(pairs) => pairs,
            StoredPairs::Many(table) => table.as_ref().as_slice(),
        }
    }

    fn contains(&self, pair: &SamplingPair) -> bool
        ensures { result ≡ list_any (pair_eq pair.now) self.now }
    {
        match &self.held {
            StoredPairs::Few(pairs) => holds(pairs, pair),
            StoredPairs::Many(table) => table.as_ref().contains(pair),
        }
    }

    fn marks(&self) -> Option<&[bool]>
        ensures marked { IfSome result (λ marks. marks.now ≡ marks_of self.now) }
        ensures once { IfSome result (λ marks. EachOnce self.now) }
    {
        match &self.held {
            StoredPairs::Few(_) => None,
            StoredPairs::Many(table) => Some(table.as_ref().marks()),
        }
    }

    fn digest(&self) -> u64 {
        match &self.held {
            StoredPairs::Few(_) => 0,
            StoredPairs::Many(table) => table.as_ref().digest,
        }
    }

    fn share(&self) -> Result<Pairs, AllocError>
        ensures { IfOk result (λ pairs. pairs ≡ self.now) }
    {
        match &self.held {
            StoredPairs::Few(pairs) => {
                let held = StoredPairs::Few(copied(pairs)?);
                Ok(Pairs { held })
            }
            StoredPairs::Many(table) => {
                let held = StoredPairs::Many(table.clone()?);
                Ok(Pairs { held })
            }
        }
    }

    fn keys(&self, alloc: Global) -> Result<Keys, AllocError>
        ensures { IfOk result (λ keys. AreKeys self.now keys) }
    {
        match &self.held {
            StoredPairs::Few(pairs) => {
                let keys = keys_of(alloc, pairs)?;
                let held = StoredKeys::Few(keys);
                Ok(Keys { held })
            }
            StoredPairs::Many(table) => {
                let shared = table.clone()?;
                let held = StoredKeys::Many(shared);
                Ok(Keys { held })
            }
        }
    }

    fn push_few(&mut self, pair: SamplingPair) -> Result<bool, AllocError>
        ensures added { IfOk result (λ added. self.new ≡ (if added then self.old ++ pair ∷ [] else self.old)) }
        ensures err { OnErr result (self.new ≡ self.old) }
    {
        match &mut self.held {
            StoredPairs::Few(pairs) => {
                if pairs.len() < FEW {
                    pairs.push(pair)?;
                    Ok(true)
                } else {
                    Ok(false)
                }
            }
            StoredPairs::Many(_) => Ok(false),
        }
    }
}

impl Keys {
    fn as_slice(&self) -> &[SamplingKey]
        ensures { result.now ≡ self.now }
    {
        match &self.held {
            StoredKeys::Few(keys) => keys,
            StoredKeys::Many(table) => table.as_ref().keys(),
        }
    }
}

impl SampledPairs {
    /// No pairs. It allocates nothing.
    pub fn new(alloc: Global) -> SampledPairs
        ensures { result.items ≡ [] }
    {
        let held = StoredPairs::Few(Vec::new(alloc));
        let items = Pairs { held };
        SampledPairs { items }
    }

    /// These pairs, as a table that functions share. Requires that the pairs are distinct. The error is out of memory.
    pub fn of_pairs(alloc: Global, pairs: Vec<SamplingPair>) -> Result<SampledPairs, AllocError>
        requires { EachOnce pairs.items }
        ensures { IfOk result (λ sampled. sampled.items ≡ pairs.items) }
    {
        let keys = keys_of(alloc, &pairs)?;
        let marks = marks_of(alloc, &pairs)?;
        let digest = digest_of(&pairs);
        let pairs = PairSet::of_pairs(alloc, pairs)?;
        let table = PairTable {
            pairs,
            keys,
            marks,
            digest,
        };
        let table = Rc::new(alloc, table)?;
        let held = StoredPairs::Many(table);
        let items = Pairs { held };
        Ok(SampledPairs { items })
    }

    /// The pairs, in order.
    pub fn as_slice(&self) -> &[SamplingPair]
        ensures { result.now ≡ self.now.items }
    {
        self.items.as_slice()
    }

    /// The number of pairs.
    pub fn len(&self) -> usize
        ensures { result ≡ length self.now.items }
    {
        self.items.as_slice().len()
    }

    /// Whether there are no pairs.
    pub fn is_empty(&self) -> bool
        ensures { IsTrue result ↔ (length self.now.items ≡ 0) }
    {
        self.items.as_slice().is_empty()
    }

    /// Whether a pair is contained.
    pub fn contains(&self, pair: &SamplingPair) -> bool
        ensures { result ≡ list_any (pair_eq pair.now) self.now.items }
    {
        self.items.contains(pair)
    }

    /// For a table: for each argument whether a pair contains it, up to the last one contained.
    pub fn marks(&self) -> Option<&[bool]>
        ensures marked { IfSome result (λ marks. marks.now ≡ marks_of self.now.items) }
        ensures once { IfSome result (λ marks. EachOnce self.now.items) }
    {
        self.items.marks()
    }

    /// For a table: its digest, an unkeyed hash, so that an attacker can build two tables with
    /// the same digest.
    pub fn digest(&self) -> u64 {
        self.items.digest()
    }

    /// A copy that shares the table, if there is one, without copying pairs. The error is out of memory.
    pub fn share(&self) -> Result<SampledPairs, AllocError>
        ensures { IfOk result (λ sampled. sampled.items ≡ self.now.items) }
    {
        let items = self.items.share()?;
        Ok(SampledPairs { items })
    }

    /// The pairs of two global variables, sorted, each once; a table is shared. The error is out of memory.
    pub fn keys(&self, alloc: Global) -> Result<SampledKeys, AllocError>
        ensures { IfOk result (λ keys. AreKeys self.now.items keys.items) }
    {
        let items = self.items.keys(alloc)?;
        Ok(SampledKeys { items })
    }

    /// Appends a pair if there are fewer than [`FEW`] and no table, and returns whether it did. The error is out of
    /// memory; the pairs are unchanged then.
    pub fn push_few(&mut self, pair: SamplingPair) -> Result<bool, AllocError>
        ensures added { IfOk result (λ added. self.new.items ≡ (if added then self.old.items ++ pair ∷ [] else self.old.items)) }
        ensures err { OnErr result (self.new.items ≡ self.old.items) }
    {
        self.items.push_few(pair)
    }
}

impl SampledKeys {
    /// The pairs, in order.
    pub fn as_slice(&self) -> &[SamplingKey]
        ensures { result.now ≡ self.now.items }
    {
        self.items.as_slice()
    }
}
