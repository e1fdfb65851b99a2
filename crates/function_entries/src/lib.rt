//! The check of the interface of an entry point with other stages and with hosts.
//!
//! Arguments and results (`varyings.rt`), used variables (`function_entry_checks`), and mesh outputs (`meshes.rt`,
//! `outputs.rt`); `connections.rt` joins all three.
#![tactic(auto)]

mod connections;
mod context;
mod known;
pub mod laws;
mod mesh_info;
mod meshes;
mod outputs;
mod varyings;

pub use connections::{check_connections, check_connections_with};
pub use context::EntryContext;
pub use known::KnownInterfaces;
pub use mesh_info::{MeshAnalysis, MeshInfo};
