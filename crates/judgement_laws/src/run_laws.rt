//! Every run of a valid entry point is safe, and its report lists what it references and samples.
//!
//! The functions do nothing: their contracts are the laws.

ghost use Rattle.judgement_laws.specs.found.Accepted.{RunsNest, RunsPassTypes, RunsUseLive, StrictRunsUseLive, RunsNameReached, RunsSamplePairs, RunsKeepStage, RunsFallByBreaks, RunsNeverEscape};
ghost use Rattle.judgement_laws.specs.judged.Lines.{LinesStand, EntriesAreReported, BuffersAreReported};
ghost use Rattle.judgement_laws.specs.judged.Local.{ReportsAreLocal};
ghost use Rattle.judgement_laws.specs.judged.Sound.{AcceptedIsSound, FunctionsBoundDepth};

/// Calls nest no deeper than the number of functions.
pub fn runs_nest()
    ensures { RunsNest }
{}

/// Arguments and return values have the declared types.
pub fn runs_pass_types()
    ensures { RunsPassTypes }
{}

/// What must be in scope is live where it is used, or always in scope, or skipped by a continue.
pub fn runs_use_live()
    ensures { RunsUseLive }
{}

/// If strict scope is required, every operand is live where it is used, or always in scope, whatever a continue skips.
pub fn strict_runs_use_live()
    ensures { StrictRunsUseLive }
{}

/// A global variable that is referenced is referenced by a function reachable from the entry point.
pub fn runs_name_reached()
    ensures { RunsNameReached }
{}

/// An image and a sampler that are sampled together are a sampled pair of the entry point.
pub fn runs_sample_pairs()
    ensures { RunsSamplePairs }
{}

/// Nothing is executed that the entry point's stage forbids.
pub fn runs_keep_stage()
    ensures { RunsKeepStage }
{}

/// If missing returns are inserted, a function with a result falls off its end only by a break out of a final switch.
pub fn runs_fall_by_breaks()
    ensures { RunsFallByBreaks }
{}

/// No break or continue escapes its function.
pub fn runs_never_escape()
    ensures { RunsNeverEscape }
{}

/// The lines of an entry point list each global variable that is its own or used, and each sampled pair.
pub fn lines_stand()
    ensures { LinesStand }
{}

/// The lines of each entry point are in the report.
pub fn entries_are_reported()
    ensures { EntriesAreReported }
{}

/// The line of each buffer is in the report.
pub fn buffers_are_reported()
    ensures { BuffersAreReported }
{}

/// The lines of an entry point are the same in the report of every module that differs only in functions which are not
/// reachable from it.
pub fn reports_are_local()
    ensures { ReportsAreLocal }
{}

/// The guarantees for a valid module and its report, if layouts, bodies and expressions are checked.
pub fn accepted_is_sound()
    ensures { AcceptedIsSound }
{}

/// The number of functions of a valid module bounds the call depth of every run.
pub fn functions_bound_depth()
    ensures { FunctionsBoundDepth }
{}
