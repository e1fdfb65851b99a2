//! The functions of a SPIR-V module, in the IR: each as it is built, and what entry points compute for them. They are built over
//! any tables and with whatever writes functions, so that all tables of a module are looked at in few places.
#![tactic(auto)]

mod building;
mod functions;
mod lowering;
mod predeclared;
mod subgroups;
mod writing;

pub use functions::{Lowered, lower_functions};
pub use spirv_operations::Special;
pub use subgroups::Subgroups;
pub use writing::{Writing, clone_in, copy_name, fail_in, made_in, type_in};
