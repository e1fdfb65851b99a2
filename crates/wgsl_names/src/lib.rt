//! Name resolution: scopes, and the items in dependency order.
#![tactic(auto)]

mod edges;
mod names;
mod scopes;

pub use names::{Names, names_of};
pub use scopes::Scopes;
