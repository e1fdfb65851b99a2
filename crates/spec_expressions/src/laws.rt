//! Laws of expression types.
ghost use Rattle.spec_expressions.specs.found.Laws.{OneType, FaultyHasNone, OperandsDecide, EquivalentOperandsDecide};

/// An expression has at most one type.
#[tactic(auto, using(crate::proofs::TypingLaws::one_type))]
pub fn one_type()
    ensures { OneType }
{}

/// An expression with a type error has no type.
pub fn faulty_has_none()
    ensures { FaultyHasNone }
{}

/// For every kind of expression, operands of the same forms give the same form or the same fault.
#[tactic(auto, using(crate::proofs::TypingLaws::operands_decide))]
pub fn operands_decide()
    ensures { OperandsDecide }
{}

/// For every kind of expression, operands of equivalent types give equivalent types, or the same fault.
#[tactic(auto, using(crate::proofs::TypingLaws::equivalent_operands_decide))]
pub fn equivalent_operands_decide()
    ensures { EquivalentOperandsDecide }
{}
