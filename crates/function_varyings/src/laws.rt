//! Laws of the errors of varyings.

ghost use Rattle.function_varyings.specs.Laws.{FaultRefutes};

/// Varyings with an error are invalid.
pub fn fault_refutes()
    ensures { FaultRefutes }
{}
