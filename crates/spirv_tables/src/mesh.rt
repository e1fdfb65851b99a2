// Where something is of what a mesh stage gives.

/// Which member of a vertex or a primitive something is.
#[derive(Clone, Copy)]
pub struct MeshMember {
    /// The index of the member, if it is given.
    pub index: Option<u32>,
    /// Whether it is signed in SPIR-V but not in the IR.
    pub unsigned: bool,
}

impl MeshMember {
    /// None.
    pub const NONE: MeshMember = MeshMember {
        index: None,
        unsigned: false,
    };
}
