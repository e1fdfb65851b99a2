//! Lowers the texture built-ins of WGSL to the IR.
#![tactic(auto)]

mod arguments;
mod functions;
mod samples;

pub use functions::lower_texture;
