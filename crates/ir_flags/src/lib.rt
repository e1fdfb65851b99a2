//! Bit flag sets, one bit per flag, in naga's order.
#![tactic(auto)]

mod debug;
pub mod laws;
mod memory;
mod settings;
mod stages;

pub use debug::write_set;
pub use memory::{Barrier, MemoryDecorations, StorageAccess};
pub use settings::{Capabilities, Settings, ValidationFlags};
pub use stages::{ShaderStages, SubgroupOperationSet};
