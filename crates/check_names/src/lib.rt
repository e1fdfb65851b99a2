//! The parts of a valid module that a host uses: for each global variable its name, binding, address space, type
//! and uses, for each entry point its name and its stage; after the indices of a report, or as data. Also which global
//! variables of a SPIR-V module are its inputs and outputs, or the samplers of combined image samplers; and the location of
//! an instruction, as data.
#![tactic(auto)]

mod lines;
mod names;
mod object;
mod parts;
mod positions;
mod roles;
mod types;
mod words;

pub use lines::NamedRows;
pub use names::Names;
pub use object::{Accepted, accepted_json};
pub use positions::{put_position, unread_json};
pub use roles::{Bound, Role, Roles};
