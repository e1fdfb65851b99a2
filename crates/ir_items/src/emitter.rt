// The range of recently appended expressions (naga's `proc::emitter`).
ghost use Rattle.std.specs.Prelude.{◌≡◌, ◌≤◌, IsTrue, None, Some, is_some, option_map, unwrap_or, length, map, slice_range};
ghost use Rattle.ir_blocks.specs.IrArena.{span_of_entry, total_span};
ghost use Rattle.ir_blocks.specs.found.View.{statement_view};
ghost use Rattle.ir_items.specs.found.Emitted.{emitted};

use ir_blocks::ir_arena::arena::Arena;
use ir_blocks::ir_arena::range::Range;
use ir_blocks::ir_arena::span::Span;
use ir_blocks::{Expression, Statement, key};
use std::marker::Model;

/// Remembers how many expressions a function had, so that those appended since can be emitted together (naga's
/// `Emitter`). In a contract it is the number of expressions at its start, or `None` if it is not running.
#[derive(Debug, Drop)]
pub struct Emitter {
    start_len: Option<usize>,
}

impl Model for Emitter {
    ghost use Rattle.std.specs.Prelude.{ℕ, Option};

    ghost Value = { Option ℕ };

    ghost view = { λ e. e.start_len };
}

impl Emitter {
    /// An emitter that is not running (naga's `Emitter::default`).
    pub fn new() -> Emitter
        ensures { result ≡ None }
    {
        Emitter { start_len: None }
    }

    /// Starts: expressions appended from now on will be emitted. It requires that the emitter is not running.
    pub fn start(&mut self, arena: &Arena<Expression, key::Expression>)
        requires idle { self.old ≡ None }
        ensures { self.new ≡ Some (length arena.now) }
    {
        self.start_len = Some(arena.len());
    }

    /// Whether it is running.
    pub fn is_running(&self) -> bool
        ensures { result ≡ is_some self.now }
    {
        self.start_len.is_some()
    }

    /// Finishes: returns the `Emit` statement of the expressions appended since the start, with the union of their
    /// spans, or `None` if there are none. It requires that the emitter is running, and that no fewer expressions exist
    /// than at the start.
    pub fn finish(
        &mut self,
        arena: &Arena<Expression, key::Expression>,
    ) -> Option<(Statement, Span)>
        requires running { IsTrue (is_some self.old) }
        requires grown { unwrap_or self.old 0 ≤ length arena.now }
        ensures stopped { self.new ≡ None }
        ensures emitted { option_map (λ p. (statement_view p.0, p.1)) result ≡ emitted (unwrap_or self.old 0) arena.now }
    {
        let start = self.start_len.take().unwrap_or(0);
        let end = arena.len();
        if start == end {
            return None;
        }
        let range = Range::new(start as u32, end as u32);
        let span = span_of(arena, start as u32, end as u32);
        Some((Statement::Emit(range), span))
    }
}

impl Default for Emitter {
    ghost use Rattle.std.specs.Prelude.{◌≡◌, None};

    ghost is_default = { λ e. e ≡ None };

    /// An emitter that is not running.
    fn default() -> Self {
        Emitter::new()
    }
}

// The union of the spans of the expressions `start..end`.
fn span_of(arena: &Arena<Expression, key::Expression>, start: u32, end: u32) -> Span
    requires ordered { start ≤ end }
    requires in_bounds { end ≤ length arena.now }
    ensures { result ≡ total_span (map span_of_entry (slice_range arena.now start end)) }
{
    let mut joined = Span::UNDEFINED;
    for span in arena.get_range_spans(Range::new(start, end)) {
        joined.subsume(*span);
    }
    joined
}
