// Laws of returns, diagnostic filters, originating globals and flattened compositions.
ghost use Rattle.ir_items.specs.judged.Bases.{OneOrigin};
ghost use Rattle.ir_items.specs.judged.Returned.{OneReturned, ReturnedByBodies};
ghost use Rattle.ir_items.specs.found.Filters.{OneSeverity};
ghost use Rattle.ir_items.specs.found.Flat.{OneFlattening};

pub use ir_blocks::laws::{
    always_in_step, completed_by_tails, completed_once, kept_equality, one_completed,
    spans_completed_by_tails,
};

/// The module whose bodies are each completed is the module with missing returns added.
pub fn returned_by_bodies()
    ensures { ReturnedByBodies }
{}

/// A module has only one completion with returns.
pub fn one_returned()
    ensures { OneReturned }
{}

/// A rule has at most one severity at a node, so that [`crate::DiagnosticFilterNodeExt::search`] has only one answer.
pub fn one_severity()
    ensures { OneSeverity }
{}

/// A chain of bases ends at one expression at most, so that [`crate::FunctionExt::originating_global`] has only one answer.
pub fn one_origin()
    ensures { OneOrigin }
{}

/// A composition has at most one flattened list, so that [`crate::flatten_compose`] has only one answer.
pub fn one_flattening()
    ensures { OneFlattening }
{}
