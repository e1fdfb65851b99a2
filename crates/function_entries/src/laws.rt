//! Laws of the errors of entry points.

ghost use Rattle.function_entries.specs.Laws.{StageFaultRefutes, PayloadFaultRefutes, ConnectionFaultRefutes, OneImplied};

/// An error of a part of an entry point refutes the rule of that part.
pub fn fault_refutes()
    ensures stage { StageFaultRefutes }
    ensures payload { PayloadFaultRefutes }
    ensures connections { ConnectionFaultRefutes }
{}

/// A variable implies at most one `MeshStageInfo`.
pub fn one_implied()
    ensures { OneImplied }
{}
