//! The interface of a module's entry points: global variables, varyings, payloads and mesh shader outputs.
//!
//! The definitions are in `specs/`. Which global variables are valid: what each address space requires of a type
//! (`Spaces.antt`), and what a variable requires (`Globals.antt`). Which varyings are valid: the built-in
//! values as a table (`BuiltInRows.antt`), the rules of one built-in value (`BuiltIns.antt`) and of one value at a location
//! (`Locations.antt`), which varyings an entry point has and the rules of all of them together (`Varyings.antt`). Which
//! entry points are valid: what a stage requires besides the function (`Stages.antt`), task payloads
//! (`Payloads.antt`), the allowed uses of global variables (`Uses.antt`, `UsedVariables.antt`), mesh shader outputs
//! (`Members.antt`, `Meshes.antt`), results of entry point functions (`Results.antt`), and entry points as a whole
//! (`Entries.antt`).
//!
//! The code computes what the definitions refer to: look-ups by handle (`lookups.rt`), members by their built-in values
//! (`members.rt`), allowed uses of a variable (`uses.rt`); and the table of built-in values is code as well
//! ([`built_in_row`]). The functions of [`worked`] and [`varyings_worked`] have no effect: their contracts are examples of the
//! definitions on small entry points and interfaces.
#![tactic(auto)]

mod found;
mod lookups;
mod members;
mod parts;
mod rows;
mod sizes;
mod table;
mod uses;
mod varyings;
pub mod varyings_worked;
mod words;
pub mod worked;

pub use lookups::{
    binding_at, inner_at, is_immediate, is_task_payload, is_workgroup, members_at, space_at, use_at,
};
pub use members::{is_struct, parts_of, topology_at};
pub use parts::{MeshPart, MeshParts};
pub use rows::{BuiltInRow, BuiltInType, Exception};
pub use sizes::MAX_WORKGROUP_SIZE;
pub use table::built_in_row;
pub use uses::{allowed_uses, is_run_for_rays, traces_rays};
pub use varyings::{Bound, Direction, Location, Varying};
pub use words::{are_same, canonical};
