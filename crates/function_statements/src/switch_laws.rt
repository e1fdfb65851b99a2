//! Laws of the check of switches.
ghost use Rattle.function_statements.specs.SwitchLaws.{FaultsRefute};

/// A switch with an error breaks its rule: an error is returned exactly if the rule is broken.
pub fn faults_refute()
    ensures { FaultsRefute }
{}
