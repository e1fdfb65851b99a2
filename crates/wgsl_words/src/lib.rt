//! Tables of the words in WGSL's grammar: keywords, directives and attributes.
#![tactic(auto)]

mod attributes;
mod directives;
mod keywords;
mod lookup;

pub use attributes::{
    AttributeWord, attribute_of, built_in_of, depth_test_of, interpolation_of, sampling_of,
};
pub use directives::{Enabled, enable_of, is_language_feature, severity_of};
pub use keywords::{Keyword, keyword_of};
pub use lookup::find;
