//! Laws of rules, for all supplied arguments.

ghost use Rattle.typing_rules.specs.judged.Laws.{ArgumentCounts, PreferredIsBest, DemandsCommute, DemandsRepeat};

/// Each rule of a math function has `MathFunction::argument_count` arguments.
#[tactic(auto, using(crate::proofs::Counts::argument_counts))]
pub fn argument_counts()
    ensures { ArgumentCounts }
{}

/// Of the rules of a function that remain for any supplied arguments, and after any `concrete_only`, none has a smaller rank
/// than the first one at a supplied argument.
pub fn preferred_is_best()
    ensures { PreferredIsBest }
{}

/// Arguments may be supplied in any order, and repeatedly.
pub fn arguments_filter()
    ensures commute { DemandsCommute }
    ensures repeat { DemandsRepeat }
{}
