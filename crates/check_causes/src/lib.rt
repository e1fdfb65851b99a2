//! The broken rules of expressions, with the actual and the required types and values: an enum for each family of rules, and a
//! function that returns the first broken rule.
#![tactic(auto)]

mod access;
mod bodies;
mod conversions;
mod expression;
mod operators;
mod selections;
mod shapes;
mod swizzles;

pub use access::{AccessCause, broken_access, broken_access_index};
pub use bodies::{ReturnCause, StoreCause, broken_return, broken_store};
pub use check_image_causes::{
    DetailCause, EdgeCause, LoadCause, NumberCause, PlaceCause, QueryCause, SampleCause,
    SamplerCause, TexelCause, TexelsCause,
};
pub use conversions::{AsCause, broken_as};
pub use expression::{Cause, broken_at, broken_rule};
pub use operators::{AlikeCause, BinaryCause, ProductCause, ShiftCause, broken_binary};
pub use selections::{SelectCause, broken_select};
pub use swizzles::{SwizzleCause, broken_swizzle};
