//! The word tables of a document.
#![tactic(auto)]

mod expressions;
mod items;
mod sets;
mod settings;
mod types;
mod words;

pub use items::entry_stage;
pub use words::{SetWord, Word, find_in, find_word};
