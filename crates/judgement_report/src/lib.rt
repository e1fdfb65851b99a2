//! The report of a valid module, and the contents of its buffers: their leaves, the scalars, vectors, matrices and
//! atomics, each with its byte range.
//!
//! `judgement` defines which text is the report. The requirements on the module and its `ModuleInfo`
//! are in `specs/`.
#![tactic(auto)]

mod buffers;
mod entries;
pub mod laws;
mod leaf_buffers;
mod leaf_rows;
mod leaves;
mod lines;
mod listing;
mod listing_lines;
mod pairs;
mod paths;
mod rows;
mod whole;

pub use judgement_rows::{BufferRow, LeafRow, ListingRow, Repeat, ReportRow, Uses};
pub use leaf_buffers::buffer_leaves;
pub use leaf_rows::MAX_NESTING;
pub use leaves::Leaf;
pub use listing::listing_rows;
pub use listing_lines::{MAX_LISTING, write_listing};
pub use rows::write_rows;
pub use whole::{report, report_rows};
