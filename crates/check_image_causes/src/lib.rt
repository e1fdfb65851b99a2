//! The broken rules of image expressions, with the actual and the required types and values: an enum for each
//! family of rules, and a function that returns the first broken rule.
#![tactic(auto)]

mod image_levels;
mod image_loads;
mod image_samples;
mod numbers;

pub use image_levels::{DetailCause, EdgeCause};
pub use image_loads::{LoadCause, QueryCause, TexelCause, TexelLoad, broken_load, broken_query};
pub use image_samples::{PlaceCause, SampleCause, SamplerCause, TexelsCause, broken_sample};
pub use numbers::NumberCause;
