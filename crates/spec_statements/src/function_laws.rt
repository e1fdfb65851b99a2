//! Laws of the functions of a module.

ghost use Rattle.spec_statements.specs.found.FunctionLaws.{OnePayload, FormsByCallees, CallsPrecede};

/// At most one ray payload type is kept before a function.
#[tactic(auto, using(crate::proofs::HeldLaws::one_payload))]
pub fn one_payload()
    ensures { OnePayload }
{}

/// An operand is of a wrong form by the pairs of callees over call chains exactly if it is by any summaries of the callees.
pub fn forms_by_callees()
    ensures { FormsByCallees }
{}

/// If the callees of a function precede it, it calls only functions before it.
pub fn calls_precede()
    ensures { CallsPrecede }
{}
