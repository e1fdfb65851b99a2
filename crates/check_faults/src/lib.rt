//! The parsing of an error and of a document for the reason of an error (the fields of an error, from its
//! `Debug` form; the parts of a document, as a JSON value, with their names), and the result for an invalid one as one JSON object:
//! the step, the item, the error with its fields, the path and the text.
#![tactic(auto)]

pub mod document;
pub mod error_text;
mod fields;
pub mod forms;
mod object;
mod parts;
mod place;
pub mod sets;
pub mod tables;

pub use object::{Refused, no_document_value, refused_value};
pub use parts::{Part, Row};
pub use place::PathNames;
