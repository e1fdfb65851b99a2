//! A law of the faults of scope.
ghost use Rattle.function_body_checks.specs.Laws.{FaultsRefute};

/// A function with a fault of scope uses what is not in scope, introduces what is, has one result twice, or has a result where none is
/// required.
pub fn faults_refute()
    ensures { FaultsRefute }
{}
