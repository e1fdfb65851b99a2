//! Laws of the steps.

ghost use Rattle.judgement.specs.found.ModuleLaws.{MoreCapabilities, OneFailure, NoneFails};

/// A module that is valid with some capabilities is valid with more.
pub fn more_capabilities()
    ensures { MoreCapabilities }
{}

/// At most one step and one index fail first.
#[tactic(auto, using(crate::proofs::Failures::one_failure))]
pub fn one_failure()
    ensures { OneFailure }
{}

/// If a step fails first, the module is invalid.
#[tactic(auto, using(crate::proofs::Failures::none_fails))]
pub fn none_fails()
    ensures { NoneFails }
{}
