//! The rules of the expressions of a function, given their types, and the stages that may run them; the rules of its
//! statements: one for each kind, scope, and the stages that may run them; and the rules of a function as a
//! whole, over any lower layer that types its expressions.
//!
//! The definitions are in `specs/`, a file for each rule and each family of expressions. `specs/judged/Statements.antt` has one row
//! for each kind of statement, `specs/judged/Checks.antt` one for each kind of expression except compositions, which
//! `specs/judged/Expressions.antt` adds. The functions here have no effect: their contracts are laws of the definitions
//! ([`laws`], [`expression_laws`]), and examples on small expressions ([`worked`]).
//!
//! `specs/judged/ModuleFunctions.antt` has the rules of the functions of a module, in order: the rules of a function,
//! given the types, the analysis and the checks of expressions, and what the earlier functions contribute.
#![tactic(auto)]

pub mod expression_laws;
pub mod function_laws;
pub mod laws;
mod shapes;
pub mod worked;

pub use shapes::{ImageType, Sampling, Shape, Shaped};
pub use spec_expressions;
