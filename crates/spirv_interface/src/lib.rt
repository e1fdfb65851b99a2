//! The interfaces of SPIR-V entry points: execution modes, input and output variables with shared locations, and mesh outputs.
#![tactic(auto)]

mod located;
mod mesh;
mod modes;
mod varyings;

pub use located::{MAX_PIECES, Piece, Place, Port, Whole, pieces_of, ports_of, wholes_of};
pub use mesh::declare_mesh;
pub use modes::{Modes, decorated_size, modes_of, stage_of};
pub use varyings::members_of;
