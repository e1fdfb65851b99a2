//! Strict scope, which no other validator checks: every operand of a statement, of a loop condition and of an emitted
//! expression is in scope where it is used, what a `Continue` may skip is not in scope after the loop body, and the results of
//! `Proceed` and ballots have their own kinds.
#![tactic(auto)]

mod answers;
mod error;
mod expressions;
mod function;
mod introducing;
pub mod laws;
mod live;
mod long;
mod pairs;
mod placed;
mod statement;
mod walk;

pub use function::check_strict;
