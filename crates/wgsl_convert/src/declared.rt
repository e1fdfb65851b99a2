// The declarations of a module that are lowered so far.

use ir_kinds::{AddressSpace, Literal};
use wgsl_tree::Part;
use wgsl_types::Shape;

/// A function of the module.
#[derive(Clone, Copy)]
pub struct FunctionEntry {
    /// Its index; a placeholder for an entry point.
    pub number: Option<u32>,
    /// Its result type, or none.
    pub gives: Shape,
    /// The range of its parameter types in a table.
    pub arguments: Part,
    /// Whether it has `@must_use`.
    pub must_use: bool,
}

/// A lowered declaration.
#[derive(Clone, Copy)]
pub enum Declared {
    /// Not lowered yet.
    Nothing,
    /// A constant scalar.
    Literal(Literal),
    /// A composite constant: its index in the store, and its type.
    Known(u32, Shape),
    /// An override: its index and its type.
    Override(u32, Shape),
    /// A type.
    Type(Shape),
    /// A global variable: its index, its type, and its address space.
    Variable(u32, Shape, AddressSpace),
    /// A function.
    Function(FunctionEntry),
}
