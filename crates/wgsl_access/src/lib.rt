//! Parts of values and variables in WGSL: elements, members, swizzles, and pointers.
#![tactic(auto)]

mod access;

pub use access::{address_of, deref, index, member};
