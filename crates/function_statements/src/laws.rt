//! A law of the rules of statements.
ghost use Rattle.function_statements.specs.Laws.{FaultsRefute};

/// A body with an error has a statement that breaks its rule.
pub fn faults_refute()
    ensures { FaultsRefute }
{}
