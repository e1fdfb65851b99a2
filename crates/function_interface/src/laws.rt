//! Laws of the checks of functions' interfaces.
ghost use Rattle.function_interface.specs.Laws.{FaultsRefute};

/// A function with an error breaks its rule: an error is returned exactly if the rule is broken.
pub fn faults_refute()
    ensures { FaultsRefute }
{}
