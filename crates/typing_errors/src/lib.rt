//! Errors of a function: of an expression (typing, width, literal, composition, global expression), of a statement (call,
//! atomic operation, subgroup operation) and of a local variable; and the causes of non-uniform control
//! flow. What the typing rules of expressions read and return: the operands whose types determine that of an
//! expression, and the forms of these types.
#![tactic(auto)]

mod atomics;
mod calls;
mod compose;
mod const_expressions;
mod disruptor;
mod error;
mod expressions;
mod locals;
mod operands;
mod resolve_error;
mod subgroups;

pub use atomics::AtomicError;
pub use calls::CallError;
pub use compose::ComposeError;
pub use const_expressions::ConstExpressionError;
pub use disruptor::UniformityDisruptor;
pub use error::FunctionError;
pub use expressions::ExpressionError;
pub use locals::LocalVariableError;
pub use operands::{Given, Operands, Typing, given_again, given_form, operands_of};
pub use resolve_error::{ResolveError, ResolveRefusal, error_of};
pub use subgroups::SubgroupError;
