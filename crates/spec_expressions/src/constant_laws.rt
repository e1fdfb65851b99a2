//! Laws of valid global expressions and overrides.
ghost use Rattle.spec_expressions.specs.found.ConstantLaws.{MoreCapabilities, ResolvedExpressions, ResolvedOverrides};

/// A larger set of capabilities accepts every global expression that a smaller one accepts.
#[tactic(auto, using(crate::proofs::Capable::more_capabilities))]
pub fn more_capabilities()
    ensures { MoreCapabilities }
{}

/// A global expression that is valid with overrides resolved is valid without.
#[tactic(auto, using(crate::proofs::Resolved::resolved_expressions))]
pub fn resolved_expressions()
    ensures { ResolvedExpressions }
{}

/// An override that is valid with overrides resolved is valid without.
#[tactic(auto, using(crate::proofs::Resolved::resolved_overrides))]
pub fn resolved_overrides()
    ensures { ResolvedOverrides }
{}
