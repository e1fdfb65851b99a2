//! Laws of the checks of ray operations.
ghost use Rattle.function_statements.specs.OperationLaws.{FaultsRefute};

/// A ray query operation or a traced ray with an error breaks its rule, and payloads with an error have different types: an
/// error is returned exactly if the rule is broken.
pub fn faults_refute()
    ensures { FaultsRefute }
{}
