//! Parser of WGSL: directives, declarations, attributes and statements.
#![tactic(auto)]

mod attributes;
mod blocks;
mod declarations;
mod directives;
mod items;
mod simple;
mod statements;

pub use items::parse;
pub use wgsl_tree::{Attribute, Item, ItemKind, Member, Part, Step, StepKind, Tree};
