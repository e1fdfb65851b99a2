//! Laws of a function's summary over its call chains.

ghost use Rattle.spec_expressions.specs.found.CallLaws.{UsesByCalls, PairsByCalls, KillsByCalls, JoinedIsSummary, JoinedByCallees, CalleesAreKnown};

/// A function's uses and sampled pairs over all call chains, and whether it may discard: its own, joined for each
/// call statement with those of the callee, the arguments substituted, and then `QUERY` for each global variable that it
/// refers to and that no function reachable from it uses directly.
pub fn by_calls()
    ensures uses { UsesByCalls }
    ensures pairs { PairsByCalls }
    ensures kills { KillsByCalls }
{}

/// A function's own effects joined with its callees' summaries, with `QUERY` for each global variable that it refers to
/// and that has no use by these, is its summary over all call chains.
pub fn joined_is_summary()
    ensures { JoinedIsSummary }
{}

/// The joined summary depends only on the summaries of callees.
pub fn joined_by_callees()
    ensures { JoinedByCallees }
{}

/// Summaries of the first functions of a module are enough for each function that calls only these.
pub fn callees_are_known()
    ensures { CalleesAreKnown }
{}
