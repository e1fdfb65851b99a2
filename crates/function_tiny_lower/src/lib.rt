//! The function checks over a small layer, for three scalars and modules without global variables: `TinyLower`.
#![tactic(auto)]

mod ends;
mod expressions;
mod known;
mod lookups;
mod operations;
mod stages;
mod tiny;
mod types;
mod uses;
mod value_type;

pub use tiny::{TinyInfo, TinyLower};
