//! If no function and no entry point of a module has a result, inserting missing returns makes no difference.
//!
//! The functions do nothing: their contracts are the laws.

ghost use Rattle.judgement_laws.specs.found.Alike.{CompletedAlike};
ghost use Rattle.judgement_laws.specs.found.ReturnLaws.{ReturnsKeepFinding, ReturnsKeepHandles, ReturnsKeepReport, ReturnsDontMatter};

/// A body and the same body with missing returns inserted have the same statements at the same positions, except for returns
/// without a value at open ends; and both have the same effects in the same order.
pub fn completed_alike()
    ensures { CompletedAlike }
{}

/// A module without results has valid handles exactly if it has valid handles with missing returns inserted.
pub fn returns_keep_handles()
    ensures { ReturnsKeepHandles }
{}

/// The result for a module without results is that for it with missing returns inserted: valid, or invalid at the same step and
/// index.
pub fn returns_keep_finding()
    ensures { ReturnsKeepFinding }
{}

/// The report of a module without results is that of it with missing returns inserted.
pub fn returns_keep_report()
    ensures { ReturnsKeepReport }
{}

/// A document without results has the same validation result and the same report, whether it requests returns or not.
pub fn returns_dont_matter()
    ensures { ReturnsDontMatter }
{}
