//! Images of SPIR-V in the IR: samples, texels, queries, and their operands and coordinates.
#![tactic(auto)]

mod images;
mod masks;
mod places;

pub use images::image_operation;
pub use masks::{ImageOperands, image_operands};
pub use places::{Coordinates, count_resources, read_coordinates, widened};
