//! Built-in values.

ghost use Rattle.std.specs.Prelude.{◌≡◌, ◌≤◌, ◌↔◌, ◌⊎◌, ℕ, IfOk, IfSome, IsTrue, MatchOption, MatchResult};
ghost use Rattle.ir_flags.specs.Sets.{Has};
ghost use Rattle.spec_interface.specs.judged.BuiltIns.{AreDistances, ExceptionOK, IsCounted, IsFree, IsOfType, RowOK, RowOccursAt};
ghost use Rattle.spec_interface.specs.found.BuiltIns.{IsLinearWorkgroup, HasNoTaskPayload};
ghost use Rattle.spec_interface.specs.judged.Contexts.{stage_set};
ghost use Rattle.spec_interface.specs.judged.BuiltInRows.{built_in_row};
ghost use Rattle.typing_forms.specs.judged.Resolutions.{types_view};
ghost use Rattle.function_varying_checks.specs.Faults.{IsBuiltInFault};
ghost use Rattle.function_varying_checks.specs.Rows.{IsExcepted, IsRowFault, IsTypeError};
ghost use Rattle.function_varying_checks.specs.View.{context_view};

use crate::context::VaryingContext;
use crate::error::VaryingError;
use crate::forms::array_of;
use bitflags::Flags;
use ir_arena::handle::Handle;
use ir_flags::{Capabilities, ShaderStages};
use ir_kinds::{BuiltIn, Scalar, ShaderStage};
use ir_sets::unique_arena::UniqueArena;
use ir_types::{ArraySize, IrType, key};
use spec_interface::{BuiltInRow, BuiltInType, Direction, Exception, built_in_row};
use std::alloc::{AllocError, Global};
use typing_forms::laws::form_equality;
use typing_forms::{Form, form_of_type, inner_of};

// The error of a built-in.
#[derive(Clone, Copy)]
pub(crate) enum RowFault {
    // This capability is missing.
    Capability(Capabilities),
    // Workgroups have more than one dimension.
    Rows,
    // It has the other direction in this stage.
    Stage,
    // It has another type.
    Type,
}

// The set of one stage.
const fn stage_set(stage: ShaderStage) -> ShaderStages
    ensures { result ≡ stage_set stage }
{
    match stage {
        ShaderStage::Vertex => ShaderStages::VERTEX,
        ShaderStage::Fragment => ShaderStages::FRAGMENT,
        ShaderStage::Compute => ShaderStages::COMPUTE,
        ShaderStage::Mesh => ShaderStages::MESH,
        ShaderStage::Task => ShaderStages::TASK,
        ShaderStage::RayGeneration => ShaderStages::RAY_GENERATION,
        ShaderStage::AnyHit => ShaderStages::ANY_HIT,
        ShaderStage::ClosestHit => ShaderStages::CLOSEST_HIT,
        ShaderStage::Miss => ShaderStages::MISS,
    }
}

// Whether a set has a stage.
fn has_stage(set: ShaderStages, stage: ShaderStage) -> bool
    ensures { IsTrue result ↔ Has set.0 (stage_set stage).0 }
{
    set.contains(stage_set(stage))
}

// Whether a row has this direction in a stage.
fn occurs_at(direction: Direction, stage: ShaderStage, row: &BuiltInRow) -> bool
    ensures { IsTrue result ↔ RowOccursAt direction stage row.now }
{
    match direction {
        Direction::Input => has_stage(row.inputs, stage),
        Direction::Output | Direction::VertexOutput => has_stage(row.outputs, stage),
        Direction::PrimitiveOutput => has_stage(row.outputs, stage) || row.primitive,
    }
}

// Whether it needs no capability in a stage, though its row names one.
fn is_free(stage: ShaderStage, exception: Exception) -> bool
    ensures { IsTrue result ↔ IsFree stage exception }
{
    match exception {
        Exception::FreeAtHits => has_stage(BuiltInRow::HITS, stage),
        Exception::None | Exception::NotAfterTasks | Exception::RowsOnly => false,
    }
}

// Whether the capability of a row is enabled.
fn check_need(context: &VaryingContext<'_>, row: &BuiltInRow) -> Result<(), RowFault>
    ensures { (ty : ℕ) → MatchResult result
        (λ _. IsFree context.now.stage row.now.exception ⊎ IfSome row.now.capability (λ x. Has context.now.capabilities.0 x.0))
        (IsRowFault (context_view context.now) ty row.now) }
{
    if is_free(context.stage, row.exception) {
        return Ok(());
    }
    match row.capability {
        Some(capability) => {
            if context.capabilities.contains(capability) {
                Ok(())
            } else {
                Err(RowFault::Capability(capability))
            }
        }
        None => Ok(()),
    }
}

/// Whether workgroups are one-dimensional.
pub fn are_rows(sizes: [u32; 3]) -> bool
    ensures { IsTrue result ↔ IsLinearWorkgroup sizes }
{
    sizes[1] <= 1 && sizes[2] <= 1
}

/// Whether a mesh shader has no task payload.
pub fn is_ahead(context: &VaryingContext<'_>) -> bool
    ensures { IsTrue result ↔ HasNoTaskPayload (context_view context.now) }
{
    context.stage != ShaderStage::Mesh || context.task_payload.is_none()
}

// Whether the additional condition of a row holds.
fn check_exception(context: &VaryingContext<'_>, exception: Exception) -> Result<(), RowFault>
    ensures { MatchResult result
        (λ _. ExceptionOK (context_view context.now) exception)
        (IsExcepted (context_view context.now) exception) }
{
    match exception {
        Exception::NotAfterTasks => {
            if is_ahead(context) {
                Ok(())
            } else {
                Err(RowFault::Stage)
            }
        }
        Exception::RowsOnly => {
            if are_rows(context.workgroup_size) {
                Ok(())
            } else {
                Err(RowFault::Rows)
            }
        }
        Exception::None | Exception::FreeAtHits => Ok(()),
    }
}

// Whether an array has this many elements, at most eight.
const fn are_few(size: ArraySize) -> bool
    ensures { IsTrue result ↔ IsCounted size (λ count. count ≤ 8) }
{
    match size {
        ArraySize::Constant(count) => count <= 8,
        ArraySize::Pending(_) | ArraySize::Dynamic => false,
    }
}

// Whether the elements of an array are `f32`, at most eight.
fn are_distances(types: &UniqueArena<IrType, key::IrType>, form: &Form) -> bool
    ensures { IsTrue result ↔ AreDistances (types_view types.now) form.now }
{
    match array_of(form) {
        Some((base, size)) => {
            form_equality(form_of_type(types, base), Form::Scalar(Scalar::F32)) && are_few(size)
        }
        None => false,
    }
}

// Whether a type is one of a built-in.
fn is_of_type(
    types: &UniqueArena<IrType, key::IrType>,
    expected: &BuiltInType,
    ty: Handle<key::IrType>,
) -> bool
    ensures { IsTrue result ↔ IsOfType (types_view types.now) expected.now ty }
{
    let form = form_of_type(types, ty);
    match expected {
        BuiltInType::Value(expected) => form_equality(form, *expected),
        BuiltInType::Distances => are_distances(types, &form),
    }
}

// Whether a type is that of the built-in of a row.
fn check_row(
    context: &VaryingContext<'_>,
    ty: Handle<key::IrType>,
    row: &BuiltInRow,
) -> Result<(), RowFault>
    ensures { MatchResult result
        (λ _. RowOK (context_view context.now) ty row.now)
        (IsRowFault (context_view context.now) ty row.now) }
{
    match check_need(context, row) {
        Ok(()) => {}
        Err(fault) => return Err(fault),
    }
    match check_exception(context, row.exception) {
        Ok(()) => {}
        Err(fault) => return Err(fault),
    }
    if !occurs_at(context.direction, context.stage, row) {
        return Err(RowFault::Stage);
    }
    if !is_of_type(context.types, &row.ty, ty) {
        return Err(RowFault::Type);
    }
    Ok(())
}

// The error of a built-in of another type. The error in its place is out of memory.
fn type_error(
    alloc: Global,
    types: &UniqueArena<IrType, key::IrType>,
    ty: Handle<key::IrType>,
    built_in: BuiltIn,
) -> Result<VaryingError, AllocError>
    ensures { IfOk result (IsTypeError (types_view types.now) ty built_in) }
{
    match inner_of(types, ty) {
        Some(inner) => {
            let inner = inner.clone(alloc)?;
            Ok(VaryingError::InvalidBuiltInType(built_in, inner))
        }
        None => Ok(VaryingError::InvalidType(ty)),
    }
}

// The error of a built-in. The error in its place is out of memory.
fn error_of(
    alloc: Global,
    context: &VaryingContext<'_>,
    ty: Handle<key::IrType>,
    built_in: BuiltIn,
    fault: RowFault,
) -> Result<VaryingError, AllocError>
    ensures { IfOk result (λ e. IsRowFault (context_view context.now) ty (built_in_row built_in) fault → IsBuiltInFault (context_view context.now) ty built_in e) }
{
    match fault {
        RowFault::Capability(capability) => Ok(VaryingError::UnsupportedCapability(capability)),
        RowFault::Rows => Ok(VaryingError::InvalidMultiDimensionalSubgroupBuiltIn),
        RowFault::Stage => Ok(VaryingError::InvalidBuiltInStage(built_in)),
        RowFault::Type => type_error(alloc, context.types, ty, built_in),
    }
}

/// The error of a value of a type as a built-in. The error in its place is out of memory.
pub fn built_in_fault(
    alloc: Global,
    context: &VaryingContext<'_>,
    ty: Handle<key::IrType>,
    built_in: BuiltIn,
) -> Result<Option<VaryingError>, AllocError>
    ensures { IfOk result (λ found. MatchOption found
        (RowOK (context_view context.now) ty (built_in_row built_in))
        (IsBuiltInFault (context_view context.now) ty built_in)) }
{
    let row = built_in_row(built_in);
    match check_row(context, ty, &row) {
        Ok(()) => Ok(None),
        Err(fault) => match error_of(alloc, context, ty, built_in, fault) {
            Ok(error) => Ok(Some(error)),
            Err(error) => Err(error),
        },
    }
}
