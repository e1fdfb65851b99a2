//! Lexer of WGSL by the rules of the standard: tokens, template lists, literals and identifiers.
#![tactic(auto)]

mod blank;
mod characters;
mod extents;
mod floats;
mod lexer;
mod numbers;
mod operators;
mod templates;
mod token;
mod words;

pub use floats::half_of;
pub use lexer::cut_tokens;
pub use numbers::number_at;
pub use token::{Token, TokenKind};
pub use words::{Look, Mark, Tokens, tokenize};
