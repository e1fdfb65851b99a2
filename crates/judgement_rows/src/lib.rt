//! The rows of the report of a valid module, and of the listing of its buffers, as data. Global variables and entry points are given
//! by their index.
#![tactic(auto)]

mod rows;

pub use rows::{BufferRow, LeafRow, ListingRow, Repeat, ReportRow, Uses};
