//! The place of an error in a body: a trail, to which the walk that finds the error adds a step per level as it returns; and
//! a walk that checks a rule for each statement of a body.
#![tactic(auto)]

mod each;
mod step;
mod trail;

pub use each::{StatementRule, check_each};
pub use step::{Part, Step};
pub use trail::Trail;
