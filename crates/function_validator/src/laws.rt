//! Laws of layers, of the errors of functions and entry points, and of valid modules.

pub use function_entries::laws::one_implied;
pub use function_modules::laws::{entries_are_ready, entry_depth_bound, made_for_accepted};
pub use judgement_laws::accepted_laws::{
    answered_by_one, answered_by_one_in_entries, bindings_differ, calls_fall,
};
pub use judgement_report::laws::{accepted_is_laid, rows_are_leaves};
pub use judgement_report::{Leaf, buffer_leaves};
