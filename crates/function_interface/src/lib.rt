//! What the function checks require of the layers below: `Lower`; and the analysis by it, after the arity of calls is checked.
//!
//! The checks of local variables, arguments and results; whether results of statements belong to statements, and which stages
//! may run the statements of a body.
#![tactic(auto)]

mod analysed;
mod answered;
mod arguments;
mod arities;
mod callees;
mod flags;
mod interface;
mod item_names;
pub mod laws;
mod locals;
mod lower;
mod results;
mod statements;
mod walk;

pub use analysed::analyse_function;
pub use answered::check_answered;
pub use arguments::check_arguments;
pub use arities::check_arities;
pub use callees::NotedStages;
pub use interface::check_interface;
pub use locals::{check_local, check_locals};
pub use lower::Lower;
pub use module_context::{CalleeStages, ListedStages};
pub use results::check_result;
pub use statements::statement_stages;
pub use walk::stages_of;
