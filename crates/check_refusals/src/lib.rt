//! The invalid item of a document that is refused: its step, name and path, the requirement that it breaks, and the broken rule of an
//! expression with its types.
#![tactic(auto)]

mod causes;
mod refused;
mod required;
mod sites;
mod types;

pub use causes::place_value;
pub use refused::{RefusedItem, refused_item, value_of};
