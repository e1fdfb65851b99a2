//! The context of the checks of varyings.

use ir_arena::handle::Handle;
use ir_flags::{Capabilities, ValidationFlags};
use ir_kinds::ShaderStage;
use ir_sets::unique_arena::UniqueArena;
use ir_types::{IrType, key};
use spec_interface::Direction;
use typing_layout::TypeInfo;

/// The context in which varyings are checked (naga's `VaryingContext`, without its mutable parts).
#[derive(Clone, Copy)]
pub struct VaryingContext<'a> {
    /// The validation flags.
    pub flags: ValidationFlags,
    /// The enabled capabilities.
    pub capabilities: Capabilities,
    /// The module's types.
    pub types: &'a UniqueArena<IrType, key::IrType>,
    /// Their `TypeInfo`s.
    pub infos: &'a [TypeInfo],
    /// The entry point's stage.
    pub stage: ShaderStage,
    /// The size of its workgroup, in invocations.
    pub workgroup_size: [u32; 3],
    /// The payload variable of a task or mesh shader.
    pub task_payload: Option<Handle<key::GlobalVariable>>,
    /// The direction of the varyings.
    pub direction: Direction,
}
