//! SPIR-V as words and instructions, and what is said of each id: the layer that knows nothing of what instructions do.
#![tactic(auto)]

mod error;
mod listing;
mod parts;
mod pieces;
mod text;
mod unsupported;

pub use error::{Failure, Malformed, SpirvError};
pub use listing::{Instruction, Listing, as_word, list, number_at, set_number};
pub use parts::{FunctionParts, Parts};
pub use pieces::{HEADER, Piece, cut};
pub use spirv_numbers::{Groups, MAX_LEN};
pub use text::{read_text, starts_text, text_length};
pub use unsupported::{Feature, Unsupported};
