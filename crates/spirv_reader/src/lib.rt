//! From the bytes of a SPIR-V module to a module of the IR, with the settings that it is to be judged by.
#![tactic(auto)]

mod body;
mod building;
mod entries;
mod reader;
mod shared;

pub use reader::read_spirv;
pub use spirv_words::{MAX_LEN, SpirvError};
