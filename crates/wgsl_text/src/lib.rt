//! Errors of WGSL texts, worded as naga's front end does, with their locations.
#![tactic(auto)]

mod error;
mod failure;
mod message;
mod places;
mod source;

pub use editor_text::Position;
pub use error::{Cause, Extent, Quote, WgslError};
pub use failure::Failure;
pub use message::message_of;
pub use places::place_of;
pub use source::{MAX_LEN, check_source};
