//! Writes a module and its settings as a JSON document.
#![tactic(auto)]

mod documents;
mod entries;
mod expressions;
mod images;
mod statements;
mod subgroups;
mod types;
mod writer;

pub use documents::write_document;
pub use writer::Writer;
