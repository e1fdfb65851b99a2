//! A law of the faults of strict scope.
ghost use Rattle.function_strict_scope.specs.Laws.{StrictFaultsRefute};

/// A function with a fault of strict scope does not have what strict scope requires.
pub fn strict_faults_refute()
    ensures { StrictFaultsRefute }
{}
