//! The varyings of an entry point (`spread.rt`), and the check of each: as a built-in by the table of `spec_interface`
//! (`built_ins.rt`), or at a location (`locations.rt`).
#![tactic(auto)]

mod built_ins;
mod context;
mod error;
mod forms;
mod locations;
mod spread;

pub use built_ins::{are_rows, built_in_fault, is_ahead};
pub use context::VaryingContext;
pub use error::{VaryingError, VaryingRefusal};
pub use locations::{check_location, is_fragment};
pub use spread::{add_value, argument_varyings};
