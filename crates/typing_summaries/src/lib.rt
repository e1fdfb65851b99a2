//! Reference counts of a function's expressions, its uses of global variables, and the pairs of images and
//! samplers that it samples: from its own body, and from the infos of its callees, with the arguments substituted.
#![tactic(auto)]

mod counts;
mod expressions;
mod joined;
mod list;
mod operands;
mod pairs;
mod places;
mod samples;
mod tally;
mod walk;

pub use counts::Counts;
pub use list::PairList;
pub use pairs::{Part, Sampled};
pub use places::{Expressions, place};
pub use tally::{Context, Tally};
