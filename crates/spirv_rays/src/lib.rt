//! Ray queries of SPIR-V in the IR: the structs of their input and output.
#![tactic(auto)]

mod rays;

pub use rays::{RayTypes, found};
