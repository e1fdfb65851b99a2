//! The reason why a document is invalid, as text: the actual value at the error's path, the types of its operands, and the
//! requirement.
#![tactic(auto)]

mod hints;
mod reason;
mod show;

pub use check_faults::PathNames;
pub use check_faults::forms::names_of;
pub use check_places::{BodyPlace, Brought, OperandType, Refusal, Site, Target, path_of};
pub use hints::{Slip, hint};
pub use reason::{Reason, name_of};
