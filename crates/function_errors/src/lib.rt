//! The error of a module, and the parts of the source that it names: the spans of its items.
#![tactic(auto)]

mod error;
mod labels;
mod modules;
mod spans;
mod subjects;

pub use error::{InvalidEntryPoint, InvalidFunction, Named, ValidationError};
pub use labels::{Item, Label, with_label};
pub use module_steps;
pub use modules::{entry_label, function_label, module_label, subject_label, variable_label};
pub use spans::with_spans;
pub use subjects::{Subject, subject_of};
