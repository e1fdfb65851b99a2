//! The requirement text for an invalid entry point.

use crate::built_ins::built_in_word;
use check_cause_texts::{SetText, word_of};
use check_function_texts::{Scene, write_function};
use function_entry_checks::EntryPointError;
use function_varying_checks::VaryingError;
use ir_arena::handle::Handle;
use ir_items::EntryPoint;
use ir_kinds::ShaderStage;
use ir_types::key;
use std::fmt;

/// The word of a stage.
pub(crate) const fn stage_word(stage: ShaderStage) -> &'static str {
    match stage {
        ShaderStage::Vertex => "Vertex",
        ShaderStage::Fragment => "Fragment",
        ShaderStage::Compute => "Compute",
        ShaderStage::Mesh => "Mesh",
        ShaderStage::Task => "Task",
        ShaderStage::RayGeneration => "RayGeneration",
        ShaderStage::AnyHit => "AnyHit",
        ShaderStage::ClosestHit => "ClosestHit",
        ShaderStage::Miss => "Miss",
    }
}

// ---- varyings

fn blend_text(error: &VaryingError) -> &'static str {
    match error {
        VaryingError::BlendSrcNotOnStructMember => "only struct members can be blend sources",
        VaryingError::InvalidMultiDimensionalSubgroupBuiltIn => {
            "subgroup built-ins require a one-dimensional workgroup: y and z at most 1"
        }
        VaryingError::InvalidPerPrimitive => {
            "only fragment inputs and primitive outputs of a mesh shader can be per-primitive"
        }
        VaryingError::MissingPerPrimitive => {
            "primitive outputs of a mesh shader must be per-primitive"
        }
        VaryingError::PerVertexNotArrayOfThree => "a PerVertex input must be an array of length 3",
        VaryingError::InvalidPerVertexSampling => "a PerVertex input cannot have a sampling",
        VaryingError::InvalidInterpolationForInteger => {
            "integer inputs and outputs must have the interpolation Flat"
        }
        VaryingError::MissingInterpolation => {
            "vertex outputs and fragment inputs must have an interpolation: Perspective, Linear or Flat"
        }
        VaryingError::MissingBinding => {
            "each argument and result of an entry point must have a binding, or be a struct whose members have"
        }
        _ => "the item breaks the rule of its kind",
    }
}

// The error of blend sources.
fn write_blend<W: fmt::Write>(f: &mut fmt::Formatter<W>, error: &VaryingError) -> fmt::Result {
    match error {
        VaryingError::BindingCollisionBlendSrc { blend_src } => {
            write!(f, "only one member can be blend source {blend_src}")
        }
        VaryingError::InvalidBlendSrcIndex {
            location,
            blend_src,
        } => write!(
            f,
            "a blend source must be 0 or 1, at location 0; this is source {blend_src} at location {location}"
        ),
        VaryingError::IncompleteBlendSrcUsage { present_blend_src } => write!(
            f,
            "both blend sources must be present; only source {present_blend_src} is"
        ),
        VaryingError::InvalidBlendSrcWithOtherBindings { location } => write!(
            f,
            "a struct with blend sources cannot have other members with a location; one has location {location}"
        ),
        VaryingError::BlendSrcOutputTypeMismatch {
            blend_src_0_type,
            blend_src_1_type,
        } => write!(
            f,
            "both blend sources must have the same type; they have types[{}] and types[{}]",
            blend_src_0_type.index(),
            blend_src_1_type.index()
        ),
        _ => write!(f, "{}", blend_text(error)),
    }
}

fn write_varying<W: fmt::Write>(
    f: &mut fmt::Formatter<W>,
    scene: &Scene<'_>,
    error: &VaryingError,
) -> fmt::Result {
    match error {
        VaryingError::InvalidType(ty) => {
            write!(
                f,
                "the type of an input or output at a location must be a numeric scalar or vector, and it is "
            )?;
            scene.write_type(f, *ty)
        }
        VaryingError::NotIOShareableType(ty) => {
            write!(
                f,
                "the type of an input or output must be a numeric scalar or vector, and it is "
            )?;
            scene.write_type(f, *ty)
        }
        VaryingError::InvalidInterpolationInStage(interpolation, stage) => write!(
            f,
            "interpolation {} is only valid at stage {}",
            word_of(*interpolation),
            stage_word(*stage)
        ),
        VaryingError::InvalidInterpolationSamplingCombination {
            interpolation,
            sampling,
        } => write!(
            f,
            "Perspective and Linear can be combined with Center, Centroid and Sample, Flat with First and Either; {} cannot be combined with {}",
            word_of(*interpolation),
            word_of(*sampling)
        ),
        VaryingError::BindingCollision { location } => {
            write!(f, "location {location} must have only one binding")
        }
        VaryingError::MemberMissingBinding(member) => {
            write!(f, "member {member} must have a binding")
        }
        VaryingError::UnsupportedCapability(missing) => {
            write!(f, "the document's capabilities lack {}", SetText(*missing))
        }
        VaryingError::InvalidInputAttributeInStage(what, stage) => {
            write!(
                f,
                "{what} is only valid for outputs of stage {}",
                stage_word(*stage)
            )
        }
        VaryingError::InvalidAttributeInStage(what, stage) => {
            write!(f, "{what} is not valid at stage {}", stage_word(*stage))
        }
        _ => write_built_in(f, error),
    }
}

// The error of a built-in value.
fn write_built_in<W: fmt::Write>(f: &mut fmt::Formatter<W>, error: &VaryingError) -> fmt::Result {
    match error {
        VaryingError::InvalidBuiltInStage(value) => write!(
            f,
            "{} is not available at this stage, or not in this direction",
            built_in_word(value)
        ),
        VaryingError::InvalidBuiltInType(value, _) => {
            write!(f, "{} has another type", built_in_word(value))
        }
        VaryingError::DuplicateBuiltIn(value) => write!(
            f,
            "{} must be present only once",
            built_in_word(value)
        ),
        _ => write_blend(f, error),
    }
}

// ---- entry points

// The requirement for an error without fields.
fn plain_text(error: &EntryPointError) -> &'static str {
    match error {
        EntryPointError::Conflict => {
            "no earlier entry point of the same stage can have the same name"
        }
        EntryPointError::MissingVertexOutputPosition => {
            "a vertex shader must output Position: bind the result, or a member of it"
        }
        EntryPointError::UnexpectedEarlyDepthTest => {
            "only fragment shaders can have an early depth test"
        }
        EntryPointError::UnexpectedWorkgroupSize => {
            "a stage without workgroups must have the workgroup size [0,0,0]"
        }
        EntryPointError::ForbiddenStageOperations => {
            "the function and its callees must not execute operations that are forbidden at this stage"
        }
        EntryPointError::MoreThanOneImmediateUsed => {
            "an entry point can use at most one variable in Immediate"
        }
        EntryPointError::ExpectedTaskPayload => "a task shader must have a task payload",
        EntryPointError::UnexpectedTaskPayload => {
            "only task and mesh shaders can have a task payload"
        }
        EntryPointError::TaskPayloadWrongAddressSpace => "the task payload must be in TaskPayload",
        EntryPointError::WrongTaskPayloadUsed => {
            "an entry point can use no other variable in TaskPayload than its task payload"
        }
        EntryPointError::WrongTaskShaderEntryResult => {
            "a task shader must return a vector of three u32"
        }
        EntryPointError::UnexpectedMeshShaderEntryResult => "a mesh shader cannot have a result",
        _ => mesh_text(error),
    }
}

// The same for mesh shaders.
fn mesh_text(error: &EntryPointError) -> &'static str {
    match error {
        EntryPointError::ExpectedMeshShaderAttributes => {
            "a mesh shader must have mesh shader attributes"
        }
        EntryPointError::UnexpectedMeshShaderAttributes => {
            "only a mesh shader can have mesh shader attributes"
        }
        EntryPointError::BadMeshOutputVariableType => {
            "the output of a mesh shader must be a struct of VertexCount, PrimitiveCount, Vertices and Primitives, and agree with the mesh shader attributes"
        }
        EntryPointError::BadMeshOutputVariableField => {
            "in the output of a mesh shader the counts must be u32, and the vertices and primitives arrays"
        }
        EntryPointError::InvalidMeshOutputType => {
            "the vertex and primitive outputs of a mesh shader must be structs"
        }
        EntryPointError::InvalidMeshPrimitiveOutputType => {
            "a primitive output must have exactly one of PointIndex, LineIndices and TriangleIndices"
        }
        EntryPointError::WrongMeshOutputAddressSpace => {
            "the output of a mesh shader must be in WorkGroup"
        }
        _ => "",
    }
}

// The only other global variable with the same group and binding.
fn other_bound(scene: &Scene<'_>, global: Handle<key::GlobalVariable>) -> Option<usize> {
    let wanted = scene.globals.try_get(global).ok()?.binding?;
    let mut found = None;
    for (handle, variable) in scene.globals.iter() {
        if handle.index() != global.index() && variable.binding == Some(wanted) {
            if found.is_some() {
                return None;
            }
            found = Some(handle.index());
        }
    }
    found
}

// Two variables with the same binding.
fn write_collision<W: fmt::Write>(
    f: &mut fmt::Formatter<W>,
    scene: &Scene<'_>,
    global: Handle<key::GlobalVariable>,
) -> fmt::Result {
    write!(
        f,
        "no other variable that the entry point uses can have the group and binding of globals[{}]",
        global.index()
    )?;
    match other_bound(scene, global) {
        Some(other) => write!(f, ", and globals[{other}] has them"),
        None => Ok(()),
    }
}

// A workgroup size that is out of range.
fn write_size<W: fmt::Write>(f: &mut fmt::Formatter<W>, size: [u32; 3]) -> fmt::Result {
    write!(
        f,
        "each dimension of the workgroup size must be 1 to 16384, and it is [{},{},{}]",
        size[0], size[1], size[2]
    )
}

// The requirement for an error of the entry point itself.
fn write_own<W: fmt::Write>(
    f: &mut fmt::Formatter<W>,
    scene: &Scene<'_>,
    entry: &EntryPoint,
    error: &EntryPointError,
) -> fmt::Result {
    match error {
        EntryPointError::OutOfRangeWorkgroupSize => write_size(f, entry.workgroup_size),
        EntryPointError::InvalidGlobalUsage(_, uses) => write!(
            f,
            "the variable's address space and access do not allow the use {}",
            SetText(*uses)
        ),
        EntryPointError::BindingCollision(global) => write_collision(f, scene, *global),
        EntryPointError::Argument(_, error) | EntryPointError::Result(error) => {
            write_varying(f, scene, error)
        }
        EntryPointError::UnsupportedCapability(missing) => {
            write!(f, "the document's capabilities lack {}", SetText(*missing))
        }
        EntryPointError::TaskPayloadTooSmall(size) => write!(
            f,
            "a task payload must have at least 4 bytes, and this one has {size}"
        ),
        EntryPointError::RayPayloadInInvalidStage(stage) => write!(
            f,
            "RayPayload can be used by RayGeneration, ClosestHit and Miss shaders, and not by {}",
            stage_word(*stage)
        ),
        EntryPointError::IncomingRayPayloadInInvalidStage(stage) => write!(
            f,
            "IncomingRayPayload can be used by AnyHit, ClosestHit and Miss shaders, and not by {}",
            stage_word(*stage)
        ),
        _ => write!(f, "{}", plain_text(error)),
    }
}

// The mesh output that the error concerns.
fn write_output<W: fmt::Write>(
    f: &mut fmt::Formatter<W>,
    scene: &Scene<'_>,
    entry: &EntryPoint,
    error: &EntryPointError,
) -> fmt::Result {
    if mesh_text(error).is_empty() {
        return Ok(());
    }
    let Some(mesh) = &entry.mesh_info else {
        return Ok(());
    };
    match scene.globals.try_get(mesh.output_variable) {
        Ok(variable) => write!(
            f,
            "; globals[{}] is of types[{}]",
            mesh.output_variable.index(),
            variable.ty.index()
        ),
        Err(_) => Ok(()),
    }
}

/// Writes the requirement for an invalid entry point.
pub(crate) fn write_entry<W: fmt::Write>(
    f: &mut fmt::Formatter<W>,
    scene: &Scene<'_>,
    entry: Option<&EntryPoint>,
    index: usize,
    error: &EntryPointError,
) -> fmt::Result {
    if let EntryPointError::Function(error) = error {
        return write_function(f, scene, error);
    }
    let Some(entry) = entry else {
        return Ok(());
    };
    write_own(f, scene, entry, error)?;
    write!(
        f,
        "; entry points[{index}].stage is {}",
        stage_word(entry.stage)
    )?;
    write_output(f, scene, entry, error)
}
