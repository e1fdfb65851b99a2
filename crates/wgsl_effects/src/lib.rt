//! Lowers WGSL's built-in functions for atomics, workgroup memory, subgroups, ray queries and cooperative matrices; result structs
//! of built-in functions.
#![tactic(auto)]

mod arguments;
mod atomics;
mod cooperative;
mod effects;
mod predeclared;
mod rays;
mod subgroups;

pub use cooperative::cooperative_load;
pub use effects::lower_effect;
pub use predeclared::result_struct;
