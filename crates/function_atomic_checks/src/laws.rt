//! Laws of the checks of atomic operations, storage images and uniform loads.
ghost use Rattle.function_atomic_checks.specs.Laws.{FaultsRefute};

/// A statement with an error breaks its rule: an error is returned exactly if the rule is broken.
pub fn faults_refute()
    ensures { FaultsRefute }
{}
