//! The types of a SPIR-V module, in the IR.
#![tactic(auto)]

mod declare;
mod shapes;
mod structs;
mod table;

pub use declare::{Reading, Resources, image_class, image_inner, space_of};
pub use shapes::{
    ImageShape, ImageUse, MatrixShape, MemberMemory, MemberShape, Shape, Stored, TypeHandle,
    span_of,
};
pub use spirv_tables::{Layout, MeshMember, vector_size};
pub use structs::{packed_line, stored_matrix};
pub use table::{TypeTable, Types, insert, numbered, vector_type};
