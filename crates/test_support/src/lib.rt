//! Support for several test crates: programs that make the calls of their input or answer the questions of files, failing
//! allocations, failing readers and writers, and tests of the order of handles.
#![tactic(auto)]

mod arenas;
pub mod call;
pub mod case;
pub mod checks;
pub mod fakes;
mod growing;
pub mod hog;
pub mod lines;
pub mod questions;
mod trial_blocks;

pub use arenas::without_memory;
pub use trial_blocks::of_block as block_in_little;
