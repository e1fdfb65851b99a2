//! The reason why a module is invalid, as text: the requirement, from the error, the broken rule and the module; and the path of an
//! error that is not in a body.
#![tactic(auto)]

mod built_ins;
mod entries;
mod items;
mod members;
mod parts;
mod sentence;

pub use check_cause_texts::TypeText;
pub use check_function_texts::Scene;
pub use function_errors;
pub use function_errors::module_steps;
pub use parts::{Steps, part_path};
pub use sentence::Sentence;
