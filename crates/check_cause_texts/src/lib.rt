//! The texts of types, and of broken rules of expressions.
#![tactic(auto)]

mod causes;
mod images;
mod types;

pub use causes::{CauseText, Types};
pub use types::{ScalarText, SetText, TypeText, space_word, word_of};
