//! The check of an expression whose operands have types, with the stages that may run it, and the requirements of image
//! operations: one module for each family, named as its definitions in `spec_statements`. The
//! other families are in `module_expression_checks`.
#![tactic(auto)]

mod expression;
mod image_loads;
mod image_samples;
pub mod laws;
mod levels;
mod operands;
mod stages;

pub use expression::validate_expression;
pub use image_loads::{check_image_load, check_image_query, is_texel};
pub use image_samples::check_image_sample;
pub use module_expression_checks;
pub use stages::expression_stages;
