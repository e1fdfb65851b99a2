//! Analysis of one function: its `FunctionInfo`, or the error ([`process_function`]); with the summary: global uses, sampled
//! pairs and uniformity requirements, from its own body and from the infos of its callees.
#![tactic(auto)]

mod infos;
mod process;
mod summary;

pub use process::{process_by, process_function};
pub use summary::{Summarized, SummaryError, summarize};
