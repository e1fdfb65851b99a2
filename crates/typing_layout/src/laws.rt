//! Laws of layouts and of expression kinds.
ghost use Rattle.typing_layout.specs.judged.Constness.{OneKind};
ghost use Rattle.typing_layout.specs.found.Held.{OneLayout, LayoutsStay};

/// Two lists of layouts of the types of one module that have the same length are equal: several calls of
/// [`crate::Layouter::update`], the last of which sees all types, have the same result as one call.
#[tactic(auto, using(crate::proofs::Held::one_layout))]
pub fn one_layout()
    ensures { OneLayout }
{}

/// Appending types to a module keeps the layouts of the earlier ones.
pub fn layouts_stay()
    ensures { LayoutsStay }
{}

/// An expression has at most one kind.
#[tactic(auto, using(crate::proofs::Latest::one_kind))]
pub fn one_kind()
    ensures { OneKind }
{}
