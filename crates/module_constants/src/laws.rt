//! An item with an error is rejected.
ghost use Rattle.module_constants.specs.Laws.{LiteralRefuted, CompositionRefuted, ComponentsRefuted, ExpressionRefuted, ConstantRefuted, OverrideRefuted};

/// A literal with an error is rejected.
#[tactic(auto, using(crate::proofs::Literals::literal_refuted))]
pub fn literal_refuted()
    ensures { LiteralRefuted }
{}

/// Component types with an error don't compose a value.
#[tactic(auto, using(crate::proofs::Compositions::composition_refuted))]
pub fn composition_refuted()
    ensures { CompositionRefuted }
{}

/// Components with an error don't compose a value.
pub fn components_refuted()
    ensures { ComponentsRefuted }
{}

/// A global expression with an error is rejected.
#[tactic(auto, using(crate::proofs::GlobalExpressions::expression_refuted))]
pub fn expression_refuted()
    ensures { ExpressionRefuted }
{}

/// A constant with an error is rejected.
pub fn constant_refuted()
    ensures { ConstantRefuted }
{}

/// An override with an error is rejected.
pub fn override_refuted()
    ensures { OverrideRefuted }
{}
