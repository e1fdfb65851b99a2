//! Laws of the infos of entry points, of the layouts of valid modules, and of listings.

ghost use Rattle.judgement_report.specs.Laws.{AcceptedIsLaid, NotedIsReported, RowsAreLeaves};

/// A `FunctionInfo` of an entry point whose uses include those of its payload and its mesh output has what the report
/// reads.
#[tactic(auto, using(crate::proofs::Noted::noted_is_reported))]
pub fn noted_is_reported()
    ensures { NotedIsReported }
{}

/// Each type of a module that passes the steps up to overrides has a layout, as [`crate::buffer_leaves`] requires.
pub fn accepted_is_laid()
    ensures { AcceptedIsLaid }
{}

/// The leaves that the rows of a listing represent are those of [`crate::buffer_leaves`].
#[tactic(auto, using(crate::proofs::RunLaws::rows_are_leaves))]
pub fn rows_are_leaves()
    ensures { RowsAreLeaves }
{}
