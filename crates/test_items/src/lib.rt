//! Reads IR items of every kind, copies and compares them, and makes calls on blocks, emitters, walks, spans and keyed hashers;
//! and makes the calls that allocate with little memory, and a little more each time.
//!
//! A call is a list: its name and its inputs, in the form of a document.
#![tactic(auto)]

mod blocks;
mod emitters;
mod hashes;
mod holder;
mod item;
mod kinds;
mod modules;
mod returns;
mod spans;
mod told;
mod trials;
mod walks;

pub use hashes::run as print_hashes;
use ir_items::{
    Block, Constant, DiagnosticFilterNode, EntryPoint, Expression, Function, GlobalVariable,
    IrType, Module, Override, SpecialTypes,
};
use serde_json::Value;
pub use spans::{of_number, of_span};
use std::alloc::{AllocError, Global};
use test_support::call::{no_call, text};

/// The result of a call on items.
pub fn answer(alloc: Global, call: &Value) -> Result<String, AllocError> {
    match text(call, 0) {
        "type" => told::of_item::<IrType>(alloc, call),
        "types" => kinds::of_types(alloc, call),
        "literal" | "expression" => told::of_item::<Expression>(alloc, call),
        "special_types" => told::of_item::<SpecialTypes>(alloc, call),
        "block" => blocks::of_block(alloc, call),
        "statements" => blocks::of_statements(alloc, call),
        "returns" => told::of_item::<Block>(alloc, call),
        "emitter" => emitters::of_emitter(alloc, call),
        "search" => walks::of_search(alloc, call),
        "origin" | "composition" | "composition_in_little" => {
            told::of_item::<Function>(alloc, call)
        }
        "context" | "lists" => told::of_item::<Module>(alloc, call),
        "document" => modules::of_document(alloc, call),
        "in_little" => trials::answer(alloc, call),
        _ => copied(alloc, call),
    }
}

// The result of a call that copies an item.
fn copied(alloc: Global, call: &Value) -> Result<String, AllocError> {
    match text(call, 0) {
        "constant" => item::compared::<Constant>(alloc, call),
        "override" => item::compared::<Override>(alloc, call),
        "global" => item::compared::<GlobalVariable>(alloc, call),
        "filter" => item::compared::<DiagnosticFilterNode>(alloc, call),
        "body" => holder::compared::<Block>(alloc, call),
        "function" => holder::compared::<Function>(alloc, call),
        "entry" => holder::compared::<EntryPoint>(alloc, call),
        "module" => holder::compared::<Module>(alloc, call),
        _ => no_call(alloc),
    }
}
