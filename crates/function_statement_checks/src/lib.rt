//! The checks of single statements: barriers, stores, calls, conditions, switch cases and `Emit`; and their context, in
//! addition to that of expressions (`CheckContext` of `module_context`).
#![tactic(auto)]

mod barriers;
mod calls;
mod conditions;
mod context;
mod cooperative_stores;
mod descriptors;
mod emits;
pub mod laws;
mod pointers;
mod returns;
mod roots;
mod stores;
mod switch_cases;
mod variables;

pub use barriers::check_barrier;
pub use calls::check_call;
pub use conditions::check_condition;
pub use context::{BlockContext, StatementContext};
pub use cooperative_stores::check_cooperative_store;
pub use descriptors::descriptors_of;
pub use emits::check_emit;
pub use pointers::{base_at, pointer_space};
pub use returns::check_return;
pub use roots::roots_of;
pub use stores::check_store;
pub use switch_cases::cases_fault;
pub use variables::{accessed_at, named_at, variable_at};
