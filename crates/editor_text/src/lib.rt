//! Texts as editors see them: positions in lines and columns, changes, and the range of a part of a JSON text.
#![tactic(auto)]

mod change;
mod part;
mod position;
mod scan;

pub use change::replaced;
pub use part::{Part, character_at, part_at};
pub use position::{Encoding, Position, byte_of, position_of};
