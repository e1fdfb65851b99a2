//! Decodes a document from JSON bytes. A document has the settings of a validator, and a module.
//!
//! Also the JSON forms of functions, entry points, statements and blocks.
#![tactic(auto)]

mod document;
mod error;
mod first;
mod functions;
mod kinds;
pub mod laws;
mod model;
mod operations;
mod parts;
mod reading;
mod statements;

pub use document::VersionForm;
pub use document_forms::{Place, Wanted};
pub use error::DocumentError;
pub use functions::{ArgumentForm, EntryForm, FunctionForm, LocalForm, ResultForm};
pub use model::{Document, build_module};
pub use parts::{AtomicForm, GatherForm, PipelineForm, RayQueryForm, ValueForm};
pub use reading::{MAX_LEN, read_document, take_document};
pub use statements::BodyForm;
