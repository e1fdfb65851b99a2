//! Pairs of an operand and its user, and an index of them: whether the users of a range need a missing operand is found without
//! looking at each.
#![tactic(auto)]

pub mod index;
pub mod pairs;
mod runs;
