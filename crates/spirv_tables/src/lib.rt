//! What the numbers of SPIR-V are in the IR, what decorations say, how values lie in memory, what operations on
//! constants give, and what has to be known of types beforehand.
#![tactic(auto)]

mod declared;
mod decorated;
mod folding;
mod groups;
mod layouts;
mod literals;
mod mesh;
pub mod operators;
mod scan;
mod tables;

pub use declared::{image_format, scalar_type};
pub use decorated::{Decorated, with_default};
pub use folding::folded;
pub use groups::collective_of;
pub use layouts::{Layout, matrix_layout, round_up, scalar_layout, vector_layout, vector_size};
pub use literals::{literal, value_of};
pub use mesh::MeshMember;
pub use scan::Scan;
pub use tables::{
    Demands, SubgroupMask, built_in, dimension, find, is_norm16, is_unsigned, subgroup_mask,
};
