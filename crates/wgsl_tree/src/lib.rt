//! A parsed WGSL text: items, with expressions and statements as steps in postfix form.
#![tactic(auto)]

mod cursor;
mod expressions;
mod items;
mod operators;
mod steps;

pub use cursor::Parser;
pub use expressions::Mode;
pub use items::{Attribute, Item, ItemKind, Member, Part, Tree};
pub use operators::assigned_operator;
pub use steps::{Step, StepKind};
