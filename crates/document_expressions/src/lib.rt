//! The JSON forms of expressions, and their decoders.
#![tactic(auto)]

mod expressions;
mod images;
mod kinds;
mod literals;

pub use expressions::ExpressionForm;
pub use images::{LevelForm, PatternForm, QueryForm};
pub use literals::LiteralRow;
