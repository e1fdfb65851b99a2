// The spans of a block's statements, which are stored only up to the last defined span.
ghost use Rattle.std.specs.Prelude.{◌≡◌, ◌≤◌, ◌+◌, ◌-◌, ◌++◌, ◌∷◌, [], length, take, IsOk, IfOk, OnOk, OnErr};
ghost use Rattle.std.specs.List.{remove_range, splice};
ghost use Rattle.ir_types.specs.IrArena.{undefined_span};
ghost use Rattle.ir_blocks.specs.found.Padded.{padded, up_to_defined};

use crate::runs::{cut, put_in};
use ir_types::ir_arena::span::Span;
use std::alloc::{AllocError, Global};
use std::marker::Model;

/// The spans of a block's first statements. All statements after them have [`Span::UNDEFINED`], so that
/// nothing is allocated for a block without spans. In a contract it is the list of the stored
/// spans.
#[derive(Debug, Drop)]
pub(crate) struct KeptSpans {
    list: Option<Box<Vec<Span>>>,
}

impl Model for KeptSpans {
    ghost use Rattle.std.specs.Prelude.{List};
    ghost use Rattle.ir_types.specs.IrArena.{Span};
    ghost use Rattle.ir_blocks.specs.found.Padded.{listed_spans};

    ghost Value = { List Span };

    ghost view = { λ k. listed_spans k.list };
}

/// Two are equal if they agree up to the last defined span.
impl PartialEq for KeptSpans {
    ghost use Rattle.ir_blocks.specs.found.Padded.{same_kept, same_kept_per};

    ghost eq = { same_kept };

    ghost laws = { same_kept_per };

    fn eq(&self, other: &Self) -> bool {
        known(self.as_slice()) == known(other.as_slice())
    }
}

// The spans up to the last one that is defined.
fn known(spans: &[Span]) -> &[Span]
    ensures { result.now ≡ up_to_defined spans.now }
{
    let mut count = spans.len();
    while count > 0 {
        if spans[count - 1].is_defined() {
            return &spans[..count];
        }
        count -= 1;
    }
    &[]
}

impl KeptSpans {
    /// No spans.
    pub fn new() -> Self
        ensures { result ≡ [] }
    {
        KeptSpans { list: None }
    }

    /// The stored spans.
    pub fn as_slice(&self) -> &[Span]
        ensures { result.now ≡ self.now }
    {
        match &self.list {
            Some(list) => list.as_slice(),
            None => &[],
        }
    }

    /// The stored spans, as a mutable slice.
    pub fn as_mut_slice(&mut self) -> &mut [Span]
        ensures { result.now ≡ self.old }
    {
        match &mut self.list {
            Some(list) => list.as_mut_slice(),
            None => &mut [],
        }
    }

    /// The stored spans, as a list.
    pub fn into_list(self, alloc: Global) -> Vec<Span>
        ensures { result.items ≡ self }
    {
        match self.list {
            Some(list) => Box::into_inner(list),
            None => Vec::new(alloc),
        }
    }

    /// The same spans in memory of their own. The error is out of memory.
    pub fn clone(&self, alloc: Global) -> Result<Self, AllocError>
        ensures { IfOk result (λ copy. copy ≡ self.now) }
    {
        let mut copy = KeptSpans::new();
        copy.extend(alloc, self.as_slice())?;
        Ok(copy)
    }

    // Appends these to the stored spans. The error is out of memory, and leaves the stored spans unchanged.
    fn extend(&mut self, alloc: Global, spans: &[Span]) -> Result<(), AllocError>
        ensures ok { OnOk result (self.new ≡ self.old ++ spans.now) }
        ensures err { OnErr result (self.new ≡ self.old) }
    {
        if spans.is_empty() {
            return Ok(());
        }
        match &mut self.list {
            Some(list) => list.extend_from_slice(spans),
            None => {
                let list = Vec::from_slice(alloc, spans)?;
                self.list = Some(Box::new(alloc, list)?);
                Ok(())
            }
        }
    }

    // Drops the spans after the first `count`.
    fn truncate(&mut self, count: usize)
        ensures { self.new ≡ take count self.old }
    {
        if let Some(list) = &mut self.list {
            list.truncate(count);
        }
    }

    /// Stores exactly `count` spans. The error is out of memory, and leaves the stored spans unchanged.
    #[tactic(auto, using(crate::proofs::PaddedLemmas::resized, crate::proofs::PaddedLemmas::padded_none))]
    pub fn pad(&mut self, alloc: Global, count: usize) -> Result<(), AllocError>
        ensures ok { OnOk result (self.new ≡ padded count self.old) }
        ensures err { OnErr result (self.new ≡ self.old) }
    {
        match &mut self.list {
            Some(list) => list.resize(count, Span::UNDEFINED),
            None => {
                if count > 0 {
                    let list = Vec::from_elem(alloc, Span::UNDEFINED, count)?;
                    self.list = Some(Box::new(alloc, list)?);
                }
                Ok(())
            }
        }
    }

    /// Appends a span after those of `count` statements. The error is out of memory, and leaves these
    /// unchanged. It can't occur if the span is undefined, because that is not stored.
    #[tactic(auto, using(crate::proofs::PaddedLemmas::pushed_undefined, crate::proofs::PaddedLemmas::pushed, crate::proofs::PaddedLemmas::refused))]
    pub fn push(&mut self, alloc: Global, count: usize, span: Span) -> Result<(), AllocError>
        ensures ok { OnOk result (padded (count + 1) self.new ≡ padded count self.old ++ span ∷ []) }
        ensures err { OnErr result (padded count self.new ≡ padded count self.old) }
        ensures succeeds { span ≡ undefined_span → IsOk result }
    {
        if !span.is_defined() {
            self.truncate(count);
            return Ok(());
        }
        self.pad(alloc, count)?;
        self.extend(alloc, &[span])
    }

    /// Moves the spans of `more` other statements after those of `count`. The error is out of memory, and leaves both
    /// unchanged.
    #[tactic(auto, using(crate::proofs::PaddedLemmas::appended_nothing, crate::proofs::PaddedLemmas::appended, crate::proofs::PaddedLemmas::refused))]
    pub fn append(
        &mut self,
        alloc: Global,
        count: usize,
        other: &mut KeptSpans,
        more: usize,
    ) -> Result<(), AllocError>
        ensures ok { OnOk result (padded (count + more) self.new ≡ padded count self.old ++ padded more other.old) }
        ensures err { OnErr result (padded count self.new ≡ padded count self.old) }
        ensures rest { OnOk result (other.new ≡ []) }
        ensures err_rest { OnErr result (other.new ≡ other.old) }
    {
        if other.as_slice().is_empty() {
            self.truncate(count);
            return Ok(());
        }
        self.pad(alloc, count)?;
        self.extend(alloc, other.as_slice())?;
        other.truncate(0);
        Ok(())
    }

    /// Removes the spans in `start..end`, as far as they are stored.
    pub fn cut(&mut self, start: usize, end: usize)
        requires { start ≤ end }
        ensures { self.new ≡ remove_range self.old start end }
    {
        if let Some(list) = &mut self.list {
            cut(list, start, end);
        }
    }

    /// Replaces the spans in `start..end`, of `count`, by those of `more` other statements. The
    /// error is out of memory, and leaves the spans unchanged; the others are dropped.
    #[tactic(auto, using(crate::proofs::PaddedLemmas::spliced_nothing, crate::proofs::PaddedLemmas::spliced, crate::proofs::PaddedLemmas::refused))]
    pub fn splice(
        &mut self,
        alloc: Global,
        count: usize,
        start: usize,
        end: usize,
        other: KeptSpans,
        more: usize,
    ) -> Result<(), AllocError>
        requires order { start ≤ end }
        requires range { end ≤ count }
        ensures ok { OnOk result (padded (start + more + (count - end)) self.new ≡ splice (padded count self.old) start end (padded more other)) }
        ensures err { OnErr result (padded count self.new ≡ padded count self.old) }
    {
        if self.as_slice().is_empty() && other.as_slice().is_empty() {
            return Ok(());
        }
        let mut other = other;
        other.pad(alloc, more)?;
        self.pad(alloc, count)?;
        self.put_in(alloc, start, end, other)
    }

    // Replaces the stored spans in `start..end` by others. The error is out of memory, and leaves the stored spans
    // unchanged.
    fn put_in(
        &mut self,
        alloc: Global,
        start: usize,
        end: usize,
        other: KeptSpans,
    ) -> Result<(), AllocError>
        requires { start ≤ end }
        ensures ok { OnOk result (self.new ≡ splice self.old start end other) }
        ensures err { OnErr result (self.new ≡ self.old) }
    {
        match &mut self.list {
            Some(list) => {
                let other = other.into_list(alloc);
                list.reserve(other.len())?;
                put_in(list, start, end, other);
            }
            None => self.list = other.list,
        }
        Ok(())
    }
}
