//! Operations of SPIR-V that are statements or give ids a meaning: memory, calls, atomics; generic over the function under construction.
//! And the table of ids and pointers.
#![tactic(auto)]

mod atomics;
mod builder;
mod calls;
mod names;
mod pointers;
mod splits;
mod storage;

pub use atomics::{atomic, store_texel};
pub use builder::{
    FunctionBuilder, MeshPlace, NO_IMAGE, Pointer, PointerStep, Slot, no_pointer, root,
};
pub use calls::call_function;
pub use names::{Names, Special};
pub use splits::split;
pub use storage::{made_name, memory, phi_local};
