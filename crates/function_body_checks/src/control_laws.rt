//! A law of how statements leave their blocks.
ghost use Rattle.function_body_checks.specs.ControlLaws.{FaultsRefute};

/// A body with a fault has a statement that leaves its block where it may not.
pub fn faults_refute()
    ensures { FaultsRefute }
{}
