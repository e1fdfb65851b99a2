//! The check of a module's handles: the first check, after which every handle can be dereferenced. Also the types and initializers
//! of the items that types and global expressions reference, and the errors of handles. The check allocates nothing.
//! `spec_expressions` states the requirements.
//!
//! [`order_laws`] states what valid handles imply for type inference and expression kinds, as these require it;
//! further consequences are the laws of `typing_handles`.
#![tactic(auto)]

mod entries;
mod error;
mod expressions;
mod functions;
mod items;
mod lists;
mod lookups;
pub mod order_laws;
mod sizes;
mod types;
mod validate;

pub use error::{FwdDepError, InvalidHandleError};
pub use lookups::{forward, init_named, init_of, place_of, type_named, type_of};
pub use sizes::{counted_by, counted_forward, pending_of};
pub use validate::validate_module_handles;
