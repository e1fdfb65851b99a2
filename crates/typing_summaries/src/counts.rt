//! Reference counts of expressions, and uses of global variables.

ghost use Rattle.std.specs.Prelude.{◌≡◌, Option, List, Some, map, IfOk, replicate, slice_index_or, ◌==◌};
ghost use Rattle.spec_expressions.specs.judged.OperandUses.{operand};
ghost use Rattle.spec_expressions.specs.declared.operand.Usage.TheVariants.{Read};
ghost use Rattle.spec_expressions.specs.judged.Summaries.{no_use};
ghost use Rattle.spec_expressions.specs.judged.Values.{known_at};
ghost use Rattle.typing_infos.specs.Infos.{marked, joined_use};
ghost use Rattle.typing_summaries.specs.Tallies.{Counted, counted, bumped, take_one, take_all, merged, queried};

use bitflags::Flags;
use ir_arena::handle::Handle;
use ir_types::key;
use spec_expressions::GlobalUse;
use std::alloc::{AllocError, Global};
use typing_infos::mark_at;

/// The reference count of each expression, and the use of each global variable.
#[derive(Drop)]
pub struct Counts {
    /// The reference count of each expression; it saturates at `usize::MAX`.
    pub counts: Vec<usize>,
    /// The use of each global variable.
    pub uses: Vec<GlobalUse>,
}

// The global variable at the root of an access chain, if any.
pub(crate) type Start = Option<Handle<key::GlobalVariable>>;

// The global variable at the root of the access chain of one expression.
fn start_of(
    globals: &[Start],
    handle: Handle<key::Expression>,
) -> Option<Handle<key::GlobalVariable>>
    ensures { result ≡ known_at globals.now handle }
{
    match globals.get(handle.index()) {
        Some(global) => *global,
        None => None,
    }
}

fn bump(counts: &mut Vec<usize>, handle: Handle<key::Expression>)
    ensures { counts.new.items ≡ bumped counts.old.items handle }
{
    let index = handle.index();
    if index < counts.len() {
        counts[index] = counts[index].saturating_add(1);
    }
}

fn mark(uses: &mut Vec<GlobalUse>, global: Option<Handle<key::GlobalVariable>>, kind: GlobalUse)
    ensures { uses.new.items ≡ marked uses.old.items global kind.0 }
{
    if let Some(global) = global {
        mark_at(uses, global.index(), kind);
    }
}

impl Counts {
    // Zero counts and empty uses.
    pub(crate) fn new(
        alloc: Global,
        expressions: usize,
        globals: usize,
    ) -> Result<Counts, AllocError>
        ensures counts { IfOk result (λ c. c.counts.items ≡ replicate expressions 0) }
        ensures uses { IfOk result (λ c. c.uses.items ≡ replicate globals no_use) }
    {
        let counts = vec![in alloc; 0usize; expressions]?;
        let uses = vec![in alloc; GlobalUse(0); globals]?;
        Ok(Counts { counts, uses })
    }

    // The allocator of the lists.
    pub(crate) fn allocator(&self) -> Global {
        *self.counts.allocator()
    }

    // Adds one operand, with this use of the global variable at its root.
    pub(crate) fn take(
        &mut self,
        globals: &[Start],
        handle: Handle<key::Expression>,
        kind: GlobalUse,
    )
        ensures { counted self.new ≡ take_one globals.now (record { handle = handle; use_bits = kind.0 }) (counted self.old) }
    {
        bump(&mut self.counts, handle);
        mark(&mut self.uses, start_of(globals, handle), kind);
    }

    pub(crate) fn read_all(&mut self, globals: &[Start], handles: &[Handle<key::Expression>])
        ensures { counted self.new ≡ take_all globals.now (map (operand Read) handles.now) (counted self.old) }
    {
        for handle in handles {
            self.take(globals, *handle, GlobalUse::READ);
        }
    }

    // Adds the uses of a callee.
    pub(crate) fn merge(&mut self, others: &[GlobalUse])
        ensures { counted self.new ≡ record { counts = self.old.counts.items; uses = merged self.old.uses.items others.now } }
    {
        merge(self.uses.as_mut_slice(), others);
    }
}

fn both(kind: GlobalUse, more: GlobalUse) -> GlobalUse
    ensures { result ≡ joined_use kind more.0 }
{
    kind.union(more)
}

fn mark_in(uses: &mut [GlobalUse], index: usize, kind: GlobalUse)
    ensures { uses.new ≡ marked uses.old (Some index) kind.0 }
{
    if index < uses.len() {
        uses[index] = both(uses[index], kind);
    }
}

// The union of each use with the other list's use of the same global variable. The loop is written so that it can be vectorized.
#[tactic(auto, using(crate::proofs::Merging::rest))]
fn merge(uses: &mut [GlobalUse], others: &[GlobalUse])
    ensures { uses.new ≡ merged uses.old others.now }
{
    let count = uses.len().min(others.len());
    for index in 0..count {
        mark_in(uses, index, others[index]);
    }
}

// Adds `QUERY` to a global variable that has no use.
pub(crate) fn name(uses: &mut Vec<GlobalUse>, global: Handle<key::GlobalVariable>)
    ensures { uses.new.items ≡ queried ((slice_index_or uses.old.items global no_use).0 == 0) uses.old.items global }
{
    let index = global.index();
    if index < uses.len() {
        if uses[index].is_empty() {
            mark_at(uses, index, GlobalUse::QUERY);
        }
    }
}
