//! The checks of single statements that access memory or texels atomically, store texels, or load workgroup memory uniformly.
//! The others are in `function_statement_checks` and `function_statements`.
#![tactic(auto)]

mod atomics;
pub mod laws;
mod storage_images;
mod uniform_loads;

pub use atomics::check_atomic;
pub use module_expressions::module_expression_checks;
pub use storage_images::{check_image_atomic, check_image_store};
pub use uniform_loads::check_uniform_load;
