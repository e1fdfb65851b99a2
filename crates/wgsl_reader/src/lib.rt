//! Reads WGSL text into a module of the IR, with the settings for its validation.
#![tactic(auto)]

mod body;
mod budget;
mod building;
mod meshes;
mod reader;
mod required;

pub use reader::read_wgsl;
pub use wgsl_text::{Cause, MAX_LEN, WgslError, message_of, place_of};
