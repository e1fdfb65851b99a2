//! Laws of the errors of global variables.

ghost use Rattle.module_globals.specs.Laws.{FaultRefutes};

/// A global variable that has an error is invalid.
pub fn fault_refutes()
    ensures { FaultRefutes }
{}
