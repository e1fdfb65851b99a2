//! The context in which a type is checked.

use ir_flags::Capabilities;
use ir_sets::unique_arena::UniqueArena;
use ir_types::{IrType, key};
use typing_layout::{Layouter, TypeInfo};

/// The context in which a type is checked.
#[derive(Clone, Copy)]
pub struct TypeContext<'a> {
    /// The enabled capabilities.
    pub capabilities: Capabilities,
    /// Whether overrides are resolved, so that no size may depend on one.
    pub overrides_resolved: bool,
    /// The module's types.
    pub types: &'a UniqueArena<IrType, key::IrType>,
    /// The layouts of the types.
    pub layouter: &'a Layouter,
    /// The `TypeInfo`s of the first types.
    pub infos: &'a [TypeInfo],
}
