//! The path in a document of an error in a body, from the error's trail.
#![tactic(auto)]

mod path;

pub use path::{json_path, paths_lead};
