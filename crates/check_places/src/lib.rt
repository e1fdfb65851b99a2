//! The location of an error in a document: in a body by its trail, at an item by the item's indices, for an invalid handle by a
//! search for the handle.
#![tactic(auto)]

mod body_place;
mod handles;
mod subject;
mod walk;

pub use body_place::BodyPlace;
pub use handles::Target;
pub use subject::{Brought, OperandType, Refusal, Site, path_of};
