// Laws of blocks, their spans, and bodies completed with returns.
ghost use Rattle.std.specs.Prelude.{◌≡◌};
ghost use Rattle.ir_blocks.specs.found.Padded.{KeptEquality};
ghost use Rattle.ir_blocks.specs.judged.Tails.{CompletedByTails, CompletedOnce, OneCompleted};
ghost use Rattle.ir_blocks.specs.found.TailSpans.{SpansCompletedByTails};
ghost use Rattle.ir_blocks.specs.found.View.{AlwaysInStep};

/// The completed body has a return at each open end of a tail block, keeps every statement at its place, and has no
/// other statement.
pub fn completed_by_tails()
    ensures { CompletedByTails }
{}

/// A block has as many spans as statements, and so has each nested block: spans are in step with their body at every
/// depth.
pub fn always_in_step()
    ensures { AlwaysInStep }
{}

/// If `==` holds for the stored spans of two blocks, all of their spans are equal, as
/// [`crate::Block::span_iter`] yields them; the converse holds if neither block stores more spans than it has statements.
pub fn kept_equality()
    ensures { KeptEquality }
{}

/// Each statement of the original body keeps its span at its place, each added return has
/// [`ir_types::ir_arena::span::Span::UNDEFINED`], and the spans are in step with the completed body at every depth. The law requires
/// spans that are in step with the original body, as those of a block always are.
pub fn spans_completed_by_tails()
    ensures { SpansCompletedByTails }
{}

/// A body has only one completion with returns.
pub fn one_completed()
    ensures { OneCompleted }
{}

/// Completing with returns is idempotent.
pub fn completed_once()
    ensures { CompletedOnce }
{}
