//! The limit of workgroup sizes.

/// The maximum workgroup size in one dimension (naga's `MAX_WORKGROUP_SIZE`).
pub const MAX_WORKGROUP_SIZE: u32 = 0x4000;
