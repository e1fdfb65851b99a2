//! The items, operands, ranges and callees that expressions and statements refer to; a search for the first match in the
//! statements of a body; and handle errors of a function.
//! `spec_expressions` defines what each kind refers to, and when handles are valid.
#![tactic(auto)]

mod bounds;
mod expressions;
mod fault;
mod forward;
mod functions;
mod lists;
mod operands;
mod placed;
mod statements;
mod walk;

pub use bounds::{Bounds, absent};
pub use expressions::item_of;
pub use fault::HandleFault;
pub use forward::{forward_callee, forward_operand, forward_parent};
pub use functions::{expression_missing, missing_in_function};
pub use lists::{operand_past, statement_operand_past};
pub use operands::{OperandUser, with_operands, with_statement_operands};
pub use placed::placed_in;
pub use statements::{callee_of, range_of, result_of};
pub use walk::{StatementLook, first_in};
