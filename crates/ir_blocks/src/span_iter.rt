// Iterators over the statements of a block with their spans.
ghost use Rattle.std.specs.Prelude.{◌≡◌, length};
ghost use Rattle.std.specs.List.{zip};
ghost use Rattle.ir_blocks.specs.found.Padded.{first_kept, padded};
ghost use Rattle.ir_blocks.specs.found.Spans.{tail_of};
ghost use Rattle.ir_blocks.specs.found.SpanIters.{pairs_to_come};

use crate::statements::Statement;
use ir_types::ir_arena::span::Span;
use std::marker::Model;
use std::{slice, vec};

// The span of a statement whose span is not stored.
static UNDEFINED: Span = Span::UNDEFINED;

/// The statements of a block in order, each with its span. In a contract it is the list of the remaining
/// items.
#[derive(Drop)]
pub struct SpanIter<'a> {
    statements: &'a [Statement],
    spans: &'a [Span],
}

impl<'a> Model for SpanIter<'a> {
    ghost use Rattle.std.specs.Prelude.{List, length};
    ghost use Rattle.std.specs.List.{zip};
    ghost use Rattle.ir_blocks.specs.found.Padded.{padded};
    ghost use Rattle.ir_types.specs.IrArena.{Span};
    ghost use Rattle.ir_blocks.specs.declared.statements.Statement.{Statement};
    ghost use Rattle.ir_blocks.specs.contracts.statements.Statement as e;
    ghost use Rattle.std.specs.Coded.{codes};

    ghost Value = { List (Statement × Span) };

    ghost coded = { Prim.hlevel (codes, e.the_row.coded) };

    ghost view = { λ i. zip i.statements.now (padded (length i.statements.now) i.spans.now) };
}

impl<'a> SpanIter<'a> {
    /// An iterator over `statements`, with `spans` for the first of them.
    pub(crate) fn new(statements: &'a [Statement], spans: &'a [Span]) -> Self
        ensures { result ≡ zip statements.now (padded (length statements.now) spans.now) }
    {
        SpanIter { statements, spans }
    }
}

// The first of the stored spans, and the rest.
fn first_kept(spans: &[Span]) -> (&Span, &[Span])
    ensures first { result.0.now ≡ first_kept spans.now }
    ensures rest { result.1.now ≡ tail_of spans.now }
{
    match spans.split_first() {
        Some((span, spans)) => (span, spans),
        None => (&UNDEFINED, spans),
    }
}

impl<'a> Iterator for SpanIter<'a> {
    ghost use Rattle.std.specs.Iterator.{YieldsFirstBy, item_count};
    ghost use Rattle.ir_blocks.specs.found.SpanIters.{with_span};

    type Item = (&'a Statement, &'a Span);

    ghost next_gives = { YieldsFirstBy with_span (λ i. i) };

    ghost remaining = { item_count (λ i. i) };

    fn next(&mut self) -> Option<(&'a Statement, &'a Span)> {
        let (statement, statements) = self.statements.split_first()?;
        let (span, spans) = first_kept(self.spans);
        self.statements = statements;
        self.spans = spans;
        Some((statement, span))
    }
}

/// The statements of a block in order, each with its span, as mutable references.
#[derive(Drop)]
pub struct SpanIterMut<'a> {
    statements: slice::IterMut<'a, Statement>,
    spans: slice::IterMut<'a, Span>,
}

impl<'a> SpanIterMut<'a> {
    /// An iterator over `statements` and `spans`, up to the shorter of both.
    pub(crate) fn new(statements: &'a mut [Statement], spans: &'a mut [Span]) -> Self
        ensures { pairs_to_come result ≡ zip statements.old spans.old }
    {
        SpanIterMut {
            statements: statements.iter_mut(),
            spans: spans.iter_mut(),
        }
    }
}

impl<'a> Iterator for SpanIterMut<'a> {
    ghost use Rattle.std.specs.Iterator.{YieldsFirstBy, item_count};
    ghost use Rattle.ir_blocks.specs.found.SpanIters.{pairs_to_come, with_span_to_change};

    type Item = (&'a mut Statement, &'a mut Span);

    ghost next_gives = { YieldsFirstBy with_span_to_change pairs_to_come };

    ghost remaining = { item_count pairs_to_come };

    fn next(&mut self) -> Option<(&'a mut Statement, &'a mut Span)> {
        let span = self.spans.next()?;
        let statement = self.statements.next()?;
        Some((statement, span))
    }
}

/// The statements that were moved out of a block, in order, each with its span. In a contract it is the list of the
/// remaining items.
#[derive(Drop)]
pub struct SpanIntoIter {
    statements: vec::IntoIter<Statement>,
    spans: vec::IntoIter<Span>,
}

impl Model for SpanIntoIter {
    ghost use Rattle.std.specs.Prelude.{List, length};
    ghost use Rattle.std.specs.List.{zip};
    ghost use Rattle.ir_blocks.specs.found.Padded.{padded};
    ghost use Rattle.std.specs.Vec.Iter.{into_iter_items};
    ghost use Rattle.ir_types.specs.IrArena.{Span};
    ghost use Rattle.ir_blocks.specs.declared.statements.Statement.{Statement};
    ghost use Rattle.ir_blocks.specs.contracts.statements.Statement as e;
    ghost use Rattle.std.specs.Coded.{codes};

    ghost Value = { List (Statement × Span) };

    ghost coded = { Prim.hlevel (codes, e.the_row.coded) };

    ghost view = { λ i. zip (into_iter_items i.statements) (padded (length (into_iter_items i.statements)) (into_iter_items i.spans)) };
}

impl SpanIntoIter {
    /// An iterator over `statements`, with `spans` for the first of them.
    pub(crate) fn new(statements: Vec<Statement>, spans: Vec<Span>) -> Self
        ensures { result ≡ zip statements.items (padded (length statements.items) spans.items) }
    {
        SpanIntoIter {
            statements: statements.into_iter(),
            spans: spans.into_iter(),
        }
    }
}

impl Iterator for SpanIntoIter {
    ghost use Rattle.std.specs.Iterator.{YieldsFirst, item_count};

    type Item = (Statement, Span);

    ghost next_gives = { YieldsFirst (λ i. i) };

    ghost remaining = { item_count (λ i. i) };

    fn next(&mut self) -> Option<(Statement, Span)> {
        let statement = self.statements.next()?;
        let span = self.spans.next().unwrap_or(Span::UNDEFINED);
        Some((statement, span))
    }
}
