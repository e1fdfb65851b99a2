//! An expression with an error is rejected.
ghost use Rattle.module_expressions.specs.Laws.{ExpressionRefuted};

/// An expression with an error is rejected.
#[tactic(auto, using(crate::proofs::Refuted::expression_refuted))]
pub fn expression_refuted()
    ensures { ExpressionRefuted }
{}
