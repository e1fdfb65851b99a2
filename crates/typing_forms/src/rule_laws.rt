//! Laws of type equivalence.
ghost use Rattle.std.specs.Prelude.{◌≡◌};
ghost use Rattle.typing_forms.specs.found.Canonical.{CanonicalOnce};
ghost use Rattle.typing_forms.specs.found.Equivalence.{EquivalentToItself, EquivalentBothWays, EquivalentAlong};

/// A type that exists is equivalent to itself: [`crate::compare_types`] is reflexive.
pub fn compare_reflexive()
    ensures { EquivalentToItself }
{}

/// Type equivalence is symmetric.
pub fn compare_symmetric()
    ensures { EquivalentBothWays }
{}

/// Type equivalence is transitive.
pub fn compare_transitive()
    ensures { EquivalentAlong }
{}

/// A canonical form has the form of the type that it is the canonical form of, and is its own canonical form.
#[tactic(auto, using(crate::proofs::CanonicalForms::canonical_once))]
pub fn canonical_once()
    ensures { CanonicalOnce }
{}
