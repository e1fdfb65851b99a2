//! Validation of WGSL: the module of a text is validated unchanged. Text that is not WGSL or not supported is reported by line and
//! column. A diagnostic is the explained validation result with its line and column, and the line of the text with a mark under the
//! part at fault.
#![tactic(auto)]

mod excerpt;
mod explained;
mod judged;
mod location;
mod unread;

pub use excerpt::Excerpt;
pub use explained::{Diagnosed, explain_wgsl};
pub use judged::{WgslAnswer, WgslVerdict, check_wgsl, wgsl_document};
pub use location::Location;
pub use unread::{unread_location, unread_object, unread_text};
pub use wgsl_reader::{Cause, WgslError, message_of};
