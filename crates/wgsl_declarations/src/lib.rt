//! Lowers WGSL's global declarations to the IR: constants, overrides, types, variables, functions and entry points.
#![tactic(auto)]

mod attributes;
mod builder;
mod filters;
mod functions;
mod interface;
mod items;
mod structs;
mod variables;

pub use builder::{EntryHead, ModuleBuilder};
pub use items::lower_items;
