//! Spans of the source text of a shader.

ghost use Rattle.std.specs.Prelude.{◌≡◌, ◌↔◌, IsTrue, IsSome, IfSome};
ghost use Rattle.std.specs.Iterator.{IsFinite, Drains};
ghost use Rattle.ir_arena.specs.found.Spans.{span_from, span_until, is_defined_span, joined_span, total_span};

use std::ops::Range;

/// A span of the source text, in bytes: from `start`, included, to `end`, excluded.
///
/// A span whose start and end are both 0 is undefined.
#[derive(Clone, Copy, PartialEq, Eq, Hash, Debug)]
pub struct Span {
    start: u32,
    end: u32,
}

impl Span {
    /// The undefined span.
    pub const UNDEFINED: Span = Span { start: 0, end: 0 };

    /// The span from the byte `start`, included, to the byte `end`, excluded.
    pub fn new(start: u32, end: u32) -> Self
        ensures { result ≡ span_from start end }
    {
        Span { start, end }
    }

    /// Whether the span is defined.
    pub fn is_defined(&self) -> bool
        ensures { result ≡ is_defined_span self.now }
    {
        *self != Span::UNDEFINED
    }

    /// The span from the start of this one up to the end of `other`.
    pub fn until(&self, other: &Self) -> Self
        ensures { result ≡ span_until self.now other.now }
    {
        Span {
            start: self.start,
            end: other.end,
        }
    }

    /// The byte range of the span, or `None` if it is undefined. If the start is greater than the end, the
    /// range is empty.
    pub fn to_range(self) -> Option<Range<usize>>
        ensures known { IsSome result ↔ IsTrue (is_defined_span self) }
        ensures start { IfSome result (λ r. r.start ≡ self.start) }
        ensures end { IfSome result (λ r. r.end ≡ self.end) }
    {
        if self.is_defined() {
            Some(self.start as usize..self.end as usize)
        } else {
            None
        }
    }

    /// The union of `spans`, [`Span::UNDEFINED`] if none is defined.
    pub fn total_span<I: Iterator<Item = Span> + Drop>(spans: I) -> Self
        requires can { I.can_next spans }
        requires ends { IsFinite (I.remaining spans) }
        ensures { (xs : _) × Drains I.next_gives spans xs × (result ≡ total_span xs) }
    {
        let mut total = Span::UNDEFINED;
        for span in spans {
            total.subsume(span);
        }
        total
    }

    /// Extends the span to the lesser start and the greater end of the two. An undefined span adds nothing.
    pub fn subsume(&mut self, other: Span)
        ensures { self.new ≡ joined_span self.old other }
    {
        if !self.is_defined() {
            *self = other;
        } else if other.is_defined() {
            self.start = self.start.min(other.start);
            self.end = self.end.max(other.end);
        }
    }
}

impl Default for Span {
    ghost use Rattle.ir_arena.specs.found.Spans.{undefined_span};

    ghost is_default = { λ s. s ≡ undefined_span };

    /// [`Span::UNDEFINED`].
    fn default() -> Self {
        Span::UNDEFINED
    }
}
