//! The rows of the table of built-ins.

use ir_flags::{Capabilities, ShaderStages};
use typing_forms::Form;

/// The type of a built-in value.
#[derive(Clone, Copy)]
pub enum BuiltInType {
    /// The type with this form.
    Value(Form),
    /// An array of at most eight 32-bit floats.
    Distances,
}

/// An exception of a row.
#[derive(Clone, Copy)]
pub enum Exception {
    /// No exception.
    None,
    /// The hit stages need no capability.
    FreeAtHits,
    /// Not an input of a mesh shader with a task payload.
    NotAfterTasks,
    /// The workgroup must be one-dimensional.
    RowsOnly,
}

/// The row of a built-in value: its stages, its type, and its capability.
#[derive(Clone, Copy)]
pub struct BuiltInRow {
    /// The stages that take it as an input.
    pub inputs: ShaderStages,
    /// The stages that have it as an output; a mesh shader has it as a vertex and as a primitive output.
    pub outputs: ShaderStages,
    /// Whether a mesh shader has it as a primitive output only.
    pub primitive: bool,
    /// Its type.
    pub ty: BuiltInType,
    /// The required capability, if any.
    pub capability: Option<Capabilities>,
    /// The exception.
    pub exception: Exception,
}

impl BuiltInRow {
    /// No stages.
    pub const NONE: ShaderStages = ShaderStages(0);

    /// The stages that output vertices.
    pub const RASTER: ShaderStages = ShaderStages(ShaderStages::VERTEX.0 | ShaderStages::MESH.0);

    /// The any-hit and closest-hit stages.
    pub const HITS: ShaderStages = ShaderStages(
        ShaderStages::ANY_HIT.0 | ShaderStages::CLOSEST_HIT.0,
    );

    /// The hit and miss stages.
    pub const HIT_OR_MISS: ShaderStages = ShaderStages(BuiltInRow::HITS.0 | ShaderStages::MISS.0);

    /// The ray tracing pipeline stages.
    pub const RAYS: ShaderStages = ShaderStages(
        BuiltInRow::HIT_OR_MISS.0 | ShaderStages::RAY_GENERATION.0,
    );

    /// The stages with instance indices.
    pub const INSTANCES: ShaderStages = ShaderStages(ShaderStages::VERTEX.0 | BuiltInRow::HITS.0);

    /// The stages with draw indices.
    pub const DRAWS: ShaderStages = ShaderStages(BuiltInRow::RASTER.0 | ShaderStages::TASK.0);

    /// The stages with view indices.
    pub const VIEWS: ShaderStages = ShaderStages(BuiltInRow::DRAWS.0 | ShaderStages::FRAGMENT.0);

    /// The stages with primitive indices as inputs.
    pub const PRIMITIVES: ShaderStages = ShaderStages(
        ShaderStages::FRAGMENT.0 | BuiltInRow::HITS.0,
    );

    /// The stages with subgroup built-in values.
    pub const SUBGROUPS: ShaderStages = ShaderStages(
        ShaderStages::COMPUTE_LIKE.0 | ShaderStages::FRAGMENT.0 | BuiltInRow::RAYS.0,
    );
}
