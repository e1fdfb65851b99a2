//! Runs of entry points: the events of executing one with any oracle answers, and which events are good.
//!
//! The functions have no effect: their contracts are the laws, and examples worked out by hand.
#![tactic(auto)]

pub mod worked;

ghost use Rattle.spec_runs.specs.judged.Laws.{NestingCutsNoRun, ScopeSuffices, SkippedIsLawful, StrictIsLawful, StrictSuffices};
ghost use Rattle.spec_runs.specs.judged.Reached.{AllAreReached};

/// The machine's bound on nesting never ends a run: only the number of steps does.
pub fn nesting_cuts_no_run()
    ensures { NestingCutsNoRun }
{}

/// The computed set of an expression and its operands at any depth is exact.
pub fn all_are_reached()
    ensures { AllAreReached }
{}

/// All expressions that the top level of a loop's body introduces are live after it, or were skipped by a continue.
pub fn skipped_is_lawful()
    ensures { SkippedIsLawful }
{}

/// If a function's scope is valid, operands that must be in scope are live where they are used, unless a continue skipped them.
pub fn scope_suffices()
    ensures { ScopeSuffices }
{}

/// All expressions that the top level of a loop's body introduces before any continue are live after the body.
pub fn strict_is_lawful()
    ensures { StrictIsLawful }
{}

/// If a function's strict scope is valid, every operand is live where it is used, whatever a continue skips.
pub fn strict_suffices()
    ensures { StrictSuffices }
{}
