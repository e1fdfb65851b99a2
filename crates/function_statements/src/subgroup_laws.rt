//! Laws of the checks of subgroup operations.
ghost use Rattle.function_statements.specs.SubgroupLaws.{FaultsRefute};

/// An operation with an error breaks its rule: an error is returned exactly if the rule is broken.
pub fn faults_refute()
    ensures { FaultsRefute }
{}
