//! Laws of the checks of statements.
ghost use Rattle.function_statement_checks.specs.Laws.{FaultsRefute};

/// A statement with an error breaks its rule: an error is returned exactly if the rule is broken.
pub fn faults_refute()
    ensures { FaultsRefute }
{}
