//! The info of a validated module and of each of its functions; the types of the expressions of a list, one after
//! another: of a function (`types_of`) or of the module's global expressions (`const_expression_types`, and
//! `process_const_expression` for one alone); and comparing types by the owner of the arena: a module, or a global context.
#![tactic(auto)]

mod compare;
mod constants;
mod function_info;
mod info;
mod keys;
mod marks;
mod pair_set;
mod refusal;
mod sampled;
mod types;
mod uses;

pub use compare::CompareTypes;
pub use constants::{const_expression_types, process_const_expression};
pub use function_info::{FunctionInfo, FunctionParts};
pub use info::ModuleInfo;
pub use pair_set::PairSet;
pub use refusal::TypingRefusal;
pub use sampled::{FEW, SampledKeys, SampledPairs};
pub use types::types_of;
pub use uses::{first_used, mark_at};
