//! The declarations of a SPIR-V module, in the IR: types, constants and global variables. Generic over the arenas, which are used in one
//! crate alone.
#![tactic(auto)]

mod budget;
mod declarations;
mod knowledge;
mod upgrades;
mod variables;
mod varyings;

pub use budget::{Budget, expression_size, type_size, words_of};
pub use declarations::{Declared, declare};
pub use knowledge::{Knowledge, ReadModule};
pub use variables::{
    GlobalHandle, KnownVariables, MeshPart, Variable, Variables, Varying, sampler_name,
};
pub use varyings::{between, locations_of, scalar_kind};
