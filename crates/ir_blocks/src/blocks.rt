// The methods of `Block`.
ghost use Rattle.std.specs.Prelude.{◌≡◌, ◌≤◌, ◌==◌, ◌++◌, ◌∷◌, [], length, map, replicate, IsOk, IfOk, IfSome, OnOk, OnErr, option_to_list};
ghost use Rattle.std.specs.List.{remove_range, splice, zip};
ghost use Rattle.std.specs.Range.Bound.{start_index, end_index};
ghost use Rattle.ir_types.specs.IrArena.{undefined_span};
ghost use Rattle.std.specs.Borrow.{sem};
ghost use Rattle.ir_blocks.specs.found.Lends.{LendsStatements};
ghost use Rattle.ir_blocks.specs.found.Room.{HasOwnRoom};
ghost use Rattle.ir_blocks.specs.found.SpanIters.{pairs_to_come};
ghost use Rattle.ir_blocks.specs.found.View.{statements_of, spans_of, room_for_statements};

use crate::kept::KeptSpans;
use crate::runs::{cut, move_after, put_in};
use crate::span_iter::{SpanIntoIter, SpanIter, SpanIterMut};
use crate::statements::{Block, Statement};
use ir_types::ir_arena::span::Span;
use std::alloc::{AllocError, Global};
use std::ops::RangeBounds;
use std::slice;

impl From<Vec<Statement>> for Block {
    ghost use Rattle.std.specs.Prelude.{◌≡◌, length, replicate};
    ghost use Rattle.ir_types.specs.IrArena.{undefined_span};
    ghost use Rattle.ir_blocks.specs.found.View.{statements_of, spans_of};

    ghost from_gives = { λ body block. (statements_of block ≡ body.items) × (spans_of block ≡ replicate (length body.items) undefined_span) };

    /// A block of these statements, each with [`Span::UNDEFINED`].
    fn from(body: Vec<Statement>) -> Self {
        Block::from_vec(body)
    }
}

impl Block {
    /// An empty block.
    pub fn new(alloc: Global) -> Block
        ensures statements { statements_of result ≡ [] }
        ensures spans { spans_of result ≡ [] }
    {
        Block {
            body: Vec::new(alloc),
            span_info: KeptSpans::new(),
        }
    }

    /// A block of these statements, each with [`Span::UNDEFINED`].
    #[tactic(auto, using(crate::proofs::PaddedLemmas::padded_none))]
    pub fn from_vec(body: Vec<Statement>) -> Block
        ensures statements { statements_of result ≡ body.items }
        ensures spans { spans_of result ≡ replicate (length body.items) undefined_span }
    {
        Block {
            body,
            span_info: KeptSpans::new(),
        }
    }

    /// An empty block with room for `count` statements. Memory for spans is allocated once a span is defined.
    /// The error is out of memory.
    pub fn with_capacity(alloc: Global, count: usize) -> Result<Block, AllocError>
        ensures statements { IfOk result (λ block. statements_of block ≡ []) }
        ensures spans { IfOk result (λ block. spans_of block ≡ []) }
        ensures room { IfOk result (λ block. count ≤ room_for_statements block) }
    {
        Ok(Block {
            body: Vec::with_capacity(alloc, count)?,
            span_info: KeptSpans::new(),
        })
    }

    /// The number of statements, nested statements not counted.
    pub fn len(&self) -> usize
        ensures { result ≡ length (statements_of self.now) }
    {
        self.body.len()
    }

    /// Whether the block is empty.
    pub fn is_empty(&self) -> bool
        ensures { result ≡ (length (statements_of self.now) == 0) }
    {
        self.body.is_empty()
    }

    /// The statements in order (naga's `Deref` of a block).
    pub fn as_slice(&self) -> &[Statement]
        ensures { result.now ≡ statements_of self.now }
    {
        &self.body
    }

    /// The statements in order, each with its span.
    pub fn span_iter(&self) -> SpanIter<'_>
        ensures { result ≡ zip (statements_of self.now) (spans_of self.now) }
    {
        SpanIter::new(&self.body, self.span_info.as_slice())
    }

    /// The statements in order, each with its span, as mutable references. The error is out of memory for spans that were
    /// not stored yet, and leaves the block unchanged. No contract gives the block after the mutation; for that use
    /// [`Block::as_mut_slice`].
    pub fn span_iter_mut(&mut self) -> Result<SpanIterMut<'_>, AllocError>
        ensures { IfOk result (λ pairs. pairs_to_come pairs ≡ zip (statements_of self.old) (spans_of self.old)) }
    {
        let alloc = *self.body.allocator();
        self.span_info.pad(alloc, self.body.len())?;
        Ok(SpanIterMut::new(&mut self.body, self.span_info.as_mut_slice()))
    }

    /// The statements in order, each with its span, by value.
    pub fn span_into_iter(self) -> SpanIntoIter
        ensures { result ≡ zip (statements_of self) (spans_of self) }
    {
        let Block { body, span_info } = self;
        let alloc = *body.allocator();
        SpanIntoIter::new(body, span_info.into_list(alloc))
    }

    /// The statements as a mutable slice (naga's `DerefMut` of a block). The spans stay.
    pub fn as_mut_slice(&mut self) -> &mut [Statement]
        ensures* writes_back { sem 𝓛 (LendsStatements self.entry result) }
        ensures value { result.now ≡ statements_of self.old }
    {
        self.body.as_mut_slice()
    }

    /// Appends a statement with its span. The error is out of memory, and leaves the block unchanged. It can't
    /// occur if the block has room and the span is [`Span::UNDEFINED`].
    pub fn push(&mut self, statement: Statement, span: Span) -> Result<(), AllocError>
        ensures statements { OnOk result (statements_of self.new ≡ statements_of self.old ++ statement ∷ []) }
        ensures spans { OnOk result (spans_of self.new ≡ spans_of self.old ++ span ∷ []) }
        ensures err_statements { OnErr result (statements_of self.new ≡ statements_of self.old) }
        ensures err_spans { OnErr result (spans_of self.new ≡ spans_of self.old) }
        ensures succeeds { HasOwnRoom self.old → span ≡ undefined_span → IsOk result }
    {
        let alloc = *self.body.allocator();
        self.body.reserve(1)?;
        self.span_info.push(alloc, self.body.len(), span)?;
        self.body.push_reserved(statement);
        Ok(())
    }

    /// Appends a statement with its span, if one is given. The error is out of memory, and leaves the
    /// block unchanged.
    pub fn extend(&mut self, item: Option<(Statement, Span)>) -> Result<(), AllocError>
        ensures statements { OnOk result (statements_of self.new ≡ statements_of self.old ++ map (λ e. e.0) (option_to_list item)) }
        ensures spans { OnOk result (spans_of self.new ≡ spans_of self.old ++ map (λ e. e.1) (option_to_list item)) }
        ensures err_statements { OnErr result (statements_of self.new ≡ statements_of self.old) }
        ensures err_spans { OnErr result (spans_of self.new ≡ spans_of self.old) }
    {
        match item {
            Some((statement, span)) => self.push(statement, span),
            None => Ok(()),
        }
    }

    /// Appends the statements of another block, with their spans. The error is out of memory, and leaves the
    /// block unchanged; the other one is dropped.
    pub fn extend_block(&mut self, other: Block) -> Result<(), AllocError>
        ensures statements { OnOk result (statements_of self.new ≡ statements_of self.old ++ statements_of other) }
        ensures spans { OnOk result (spans_of self.new ≡ spans_of self.old ++ spans_of other) }
        ensures err_statements { OnErr result (statements_of self.new ≡ statements_of self.old) }
        ensures err_spans { OnErr result (spans_of self.new ≡ spans_of self.old) }
    {
        let mut other = other;
        self.append(&mut other)
    }

    /// Moves the statements of another block to the end of this one, with their spans, and leaves the other empty.
    /// The error is out of memory, and leaves both unchanged.
    pub fn append(&mut self, other: &mut Block) -> Result<(), AllocError>
        ensures statements { OnOk result (statements_of self.new ≡ statements_of self.old ++ statements_of other.old) }
        ensures spans { OnOk result (spans_of self.new ≡ spans_of self.old ++ spans_of other.old) }
        ensures rest { OnOk result (statements_of other.new ≡ []) }
        ensures rest_spans { OnOk result (spans_of other.new ≡ []) }
        ensures err_statements { OnErr result (statements_of self.new ≡ statements_of self.old) }
        ensures err_spans { OnErr result (spans_of self.new ≡ spans_of self.old) }
        ensures err_rest { OnErr result (statements_of other.new ≡ statements_of other.old) }
        ensures err_rest_spans { OnErr result (spans_of other.new ≡ spans_of other.old) }
    {
        let alloc = *self.body.allocator();
        let (count, more) = (self.body.len(), other.body.len());
        self.body.reserve(more)?;
        self.span_info
            .append(alloc, count, &mut other.span_info, more)?;
        move_after(&mut self.body, &mut other.body);
        Ok(())
    }

    /// Removes the statements in `range`, with their spans. Its contract requires that the range is within the block's
    /// statements, where naga panics.
    #[tactic(auto, using(crate::proofs::PaddedLemmas::culled))]
    pub fn cull<R: RangeBounds<usize>>(&mut self, range: R)
        requires known { R.has_bounds range }
        requires start_le_end { start_index (R.start_bound range) ≤ end_index (R.end_bound range) (length (statements_of self.old)) }
        requires in_bounds { end_index (R.end_bound range) (length (statements_of self.old)) ≤ length (statements_of self.old) }
        ensures statements { statements_of self.new ≡ remove_range (statements_of self.old) (start_index (R.start_bound range)) (end_index (R.end_bound range) (length (statements_of self.old))) }
        ensures spans { spans_of self.new ≡ remove_range (spans_of self.old) (start_index (R.start_bound range)) (end_index (R.end_bound range) (length (statements_of self.old))) }
    {
        let range = slice::range(range, ..self.body.len());
        cut(&mut self.body, range.start, range.end);
        self.span_info.cut(range.start, range.end);
    }

    /// Replaces the statements in `range` by those of another block, with their spans. Its contract requires
    /// that the range is within the block's statements, where naga panics. The error is out of memory, and leaves the block
    /// unchanged; the other one is dropped.
    pub fn splice<R: RangeBounds<usize>>(
        &mut self,
        range: R,
        other: Block,
    ) -> Result<(), AllocError>
        requires known { R.has_bounds range }
        requires start_le_end { start_index (R.start_bound range) ≤ end_index (R.end_bound range) (length (statements_of self.old)) }
        requires in_bounds { end_index (R.end_bound range) (length (statements_of self.old)) ≤ length (statements_of self.old) }
        ensures statements { OnOk result (statements_of self.new ≡ splice (statements_of self.old) (start_index (R.start_bound range)) (end_index (R.end_bound range) (length (statements_of self.old))) (statements_of other)) }
        ensures spans { OnOk result (spans_of self.new ≡ splice (spans_of self.old) (start_index (R.start_bound range)) (end_index (R.end_bound range) (length (statements_of self.old))) (spans_of other)) }
        ensures err_statements { OnErr result (statements_of self.new ≡ statements_of self.old) }
        ensures err_spans { OnErr result (spans_of self.new ≡ spans_of self.old) }
    {
        let range = slice::range(range, ..self.body.len());
        let alloc = *self.body.allocator();
        let Block { body, span_info } = other;
        let (count, more) = (self.body.len(), body.len());
        self.body.reserve(more)?;
        self.span_info
            .splice(alloc, count, range.start, range.end, span_info, more)?;
        put_in(&mut self.body, range.start, range.end, body);
        Ok(())
    }
}
