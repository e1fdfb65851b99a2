//! One value at a location.

ghost use Rattle.std.specs.Prelude.{◌≡◌, ◌≢◌, ◌⊎◌, ◌↔◌, ℕ, IsSome, IsTrue, MatchResult, Some};
ghost use Rattle.ir_flags.specs.Sets.{Has};
ghost use Rattle.ir_flags.specs.declared.settings.TheConstants.Capabilities.{MESH_SHADER, MULTISAMPLED_SHADING};
ghost use Rattle.ir_kinds.specs.declared.bindings.Interpolation.TheVariants.{Flat, PerVertex};
ghost use Rattle.ir_kinds.specs.declared.bindings.Sampling.TheVariants.{Center, Sample};
ghost use Rattle.ir_kinds.specs.declared.stages.ShaderStage.TheVariants.{Fragment, Mesh, Vertex};
ghost use Rattle.spec_interface.specs.judged.Contexts.{VaryingContext as PlainContext};
ghost use Rattle.spec_interface.specs.judged.Locations.{NeedsInterpolation, InterpolationOK, LocationOK, PerPrimitiveOK, PerVertexOK, varying_type, sampling_fits, is_flat_sampling};
ghost use Rattle.function_varying_checks.specs.Faults.{IsLocationFault};
ghost use Rattle.function_varying_checks.specs.Steps.{AreCombined, IsKept, IsPrimitiveFault, IsSpread, IsUnfound, ValueOK};
ghost use Rattle.function_varying_checks.specs.View.{IsReported, context_view};

use crate::context::VaryingContext;
use crate::error::VaryingError;
use crate::forms::{is_shared, kind_of, of_three};
use bitflags::Flags;
use ir_arena::handle::Handle;
use ir_flags::Capabilities;
use ir_kinds::{Interpolation, Sampling, ScalarKind, ShaderStage};
use ir_types::key;
use spec_interface::{Direction, Location};
use typing_forms::form_of_type;

// Whether a varying is per vertex.
const fn is_per_vertex(interpolation: Option<Interpolation>) -> bool
    ensures { IsTrue result ↔ (interpolation ≡ Some PerVertex) }
{
    match interpolation {
        Some(Interpolation::PerVertex) => true,
        Some(Interpolation::Perspective)
        | Some(Interpolation::Linear)
        | Some(Interpolation::Flat)
        | None => false,
    }
}

/// Whether a stage is the fragment stage.
pub const fn is_fragment(stage: ShaderStage) -> bool
    ensures { IsTrue result ↔ (stage ≡ Fragment) }
{
    matches!(stage, ShaderStage::Fragment)
}

// Whether a sampling is given, and is not the center.
const fn is_off_center(sampling: Option<Sampling>) -> bool
    ensures { IsTrue result ↔ (IsSome sampling × (sampling ≢ Some Center)) }
{
    match sampling {
        Some(Sampling::Centroid)
        | Some(Sampling::Sample)
        | Some(Sampling::First)
        | Some(Sampling::Either) => true,
        Some(Sampling::Center) | None => false,
    }
}

// Whether a per-primitive varying is allowed.
fn check_mesh(context: &VaryingContext<'_>, at: &Location) -> Result<(), VaryingError>
    ensures { (ty : ℕ) → MatchResult result
        (λ _. IsTrue at.now.per_primitive → Has context.now.capabilities.0 MESH_SHADER.0)
        (IsLocationFault (context_view context.now) ty at.now) }
{
    if at.per_primitive && !context.capabilities.contains(Capabilities::MESH_SHADER) {
        return Err(VaryingError::UnsupportedCapability(Capabilities::MESH_SHADER));
    }
    Ok(())
}

// Whether a per-vertex varying is allowed.
fn check_vertices(context: &VaryingContext<'_>, at: &Location) -> Result<(), VaryingError>
    ensures { (ty : ℕ) → MatchResult result
        (λ _. at.now.interpolation ≡ Some PerVertex → PerVertexOK (context_view context.now))
        (IsLocationFault (context_view context.now) ty at.now) }
{
    if !is_per_vertex(at.interpolation) {
        return Ok(());
    }
    if !is_fragment(context.stage) {
        return Err(VaryingError::InvalidInterpolationInStage(
            Interpolation::PerVertex,
            ShaderStage::Fragment,
        ));
    }
    if !context.capabilities.contains(Capabilities::PER_VERTEX) {
        return Err(VaryingError::UnsupportedCapability(Capabilities::PER_VERTEX));
    }
    if is_off_center(at.sampling) {
        return Err(VaryingError::InvalidPerVertexSampling);
    }
    Ok(())
}

// The relevant type: for a per-vertex varying, that of the elements.
fn counted(
    context: &VaryingContext<'_>,
    ty: Handle<key::IrType>,
    interpolation: Option<Interpolation>,
) -> Option<Handle<key::IrType>>
    ensures { result ≡ varying_type (context_view context.now).types interpolation ty }
{
    match interpolation {
        Some(Interpolation::PerVertex) => of_three(&form_of_type(context.types, ty)),
        Some(Interpolation::Perspective)
        | Some(Interpolation::Linear)
        | Some(Interpolation::Flat)
        | None => Some(ty),
    }
}

// The relevant type, if it exists and per-vertex varyings are allowed.
fn check_counted(
    context: &VaryingContext<'_>,
    ty: Handle<key::IrType>,
    at: &Location,
) -> Result<Handle<key::IrType>, VaryingError>
    ensures { MatchResult result
        (IsSpread (context_view context.now) ty at.now)
        (IsLocationFault (context_view context.now) ty at.now) }
{
    match check_mesh(context, at) {
        Ok(()) => {}
        Err(error) => return Err(error),
    }
    match check_vertices(context, at) {
        Ok(()) => {}
        Err(error) => return Err(error),
    }
    match counted(context, ty, at.interpolation) {
        Some(element) => Ok(element),
        None => Err(VaryingError::PerVertexNotArrayOfThree),
    }
}

// Whether a varying of this direction is per primitive exactly if it says so.
fn check_primitive(
    direction: Direction,
    stage: ShaderStage,
    per_primitive: bool,
) -> Result<(), VaryingError>
    ensures { MatchResult result
        (λ _. PerPrimitiveOK direction stage per_primitive)
        (IsPrimitiveFault direction stage per_primitive) }
{
    match direction {
        Direction::PrimitiveOutput => {
            if per_primitive {
                Ok(())
            } else {
                Err(VaryingError::MissingPerPrimitive)
            }
        }
        Direction::Input => {
            if per_primitive && !is_fragment(stage) {
                Err(VaryingError::InvalidPerPrimitive)
            } else {
                Ok(())
            }
        }
        Direction::Output | Direction::VertexOutput => {
            if per_primitive {
                Err(VaryingError::InvalidPerPrimitive)
            } else {
                Ok(())
            }
        }
    }
}

// Whether the relevant type of a value is allowed at a location.
fn check_kept(
    context: &VaryingContext<'_>,
    ty: Handle<key::IrType>,
    element: Handle<key::IrType>,
    at: &Location,
) -> Result<(), VaryingError>
    requires told { IsReported context.now }
    requires counts { varying_type (context_view context.now).types at.now.interpolation ty ≡ Some element }
    ensures { MatchResult result
        (λ _. IsKept (context_view context.now) element at.now)
        (IsLocationFault (context_view context.now) ty at.now) }
{
    if !is_shared(context, element) {
        return Err(VaryingError::NotIOShareableType(element));
    }
    match check_primitive(context.direction, context.stage, at.per_primitive) {
        Ok(()) => {}
        Err(error) => return Err(error),
    }
    if at.blend_src.is_some() {
        return Err(VaryingError::BlendSrcNotOnStructMember);
    }
    Ok(())
}

// Whether a sampling is one of per-vertex varyings.
const fn is_of_vertex(sampling: Sampling) -> bool
    ensures { result ≡ is_flat_sampling sampling }
{
    match sampling {
        Sampling::First | Sampling::Either => true,
        Sampling::Center | Sampling::Centroid | Sampling::Sample => false,
    }
}

// Whether a sampling is allowed with an interpolation.
const fn goes_with(interpolation: Interpolation, sampling: Sampling) -> bool
    ensures { result ≡ sampling_fits interpolation sampling }
{
    match interpolation {
        Interpolation::Perspective | Interpolation::Linear => !is_of_vertex(sampling),
        Interpolation::Flat => is_of_vertex(sampling),
        Interpolation::PerVertex => false,
    }
}

// Whether the sampling is allowed with the varying's interpolation.
fn check_combination(at: &Location) -> Result<(), VaryingError>
    ensures { (c : PlainContext) (ty : ℕ) → MatchResult result
        (λ _. AreCombined at.now)
        (IsLocationFault c ty at.now) }
{
    match at.sampling {
        Some(sampling) => match at.interpolation {
            Some(interpolation) => {
                if goes_with(interpolation, sampling) {
                    Ok(())
                } else {
                    Err(VaryingError::InvalidInterpolationSamplingCombination {
                        interpolation,
                        sampling,
                    })
                }
            }
            None => Ok(()),
        },
        None => Ok(()),
    }
}

// Whether a varying is sampled per sample.
const fn is_sample(sampling: Option<Sampling>) -> bool
    ensures { IsTrue result ↔ (sampling ≡ Some Sample) }
{
    match sampling {
        Some(Sampling::Sample) => true,
        Some(Sampling::Center)
        | Some(Sampling::Centroid)
        | Some(Sampling::First)
        | Some(Sampling::Either)
        | None => false,
    }
}

// Whether sampling per sample is enabled, if used.
fn check_samples(context: &VaryingContext<'_>, at: &Location) -> Result<(), VaryingError>
    ensures { (ty : ℕ) → MatchResult result
        (λ _. at.now.sampling ≡ Some Sample → Has context.now.capabilities.0 MULTISAMPLED_SHADING.0)
        (IsLocationFault (context_view context.now) ty at.now) }
{
    if is_sample(at.sampling)
        && !context
            .capabilities
            .contains(Capabilities::MULTISAMPLED_SHADING)
    {
        return Err(VaryingError::UnsupportedCapability(Capabilities::MULTISAMPLED_SHADING));
    }
    Ok(())
}

// Whether varyings of a stage are interpolated.
const fn gives_vertices(stage: ShaderStage) -> bool
    ensures { IsTrue result ↔ ((stage ≡ Vertex) ⊎ (stage ≡ Mesh)) }
{
    matches!(stage, ShaderStage::Vertex | ShaderStage::Mesh)
}

// Whether an interpolated varying lacks its interpolation.
const fn is_between(direction: Direction, stage: ShaderStage, per_primitive: bool) -> bool
    ensures { IsTrue result ↔ NeedsInterpolation direction stage per_primitive }
{
    match direction {
        Direction::Input => is_fragment(stage) && !per_primitive,
        Direction::Output | Direction::VertexOutput | Direction::PrimitiveOutput => {
            gives_vertices(stage)
        }
    }
}

// Whether values are not interpolated.
const fn is_flat(interpolation: Option<Interpolation>) -> bool
    ensures { IsTrue result ↔ (interpolation ≡ Some Flat) }
{
    match interpolation {
        Some(Interpolation::Flat) => true,
        Some(Interpolation::Perspective)
        | Some(Interpolation::Linear)
        | Some(Interpolation::PerVertex)
        | None => false,
    }
}

// Whether an interpolated varying has the interpolation of its kind.
fn check_found(kind: ScalarKind, interpolation: Option<Interpolation>) -> Result<(), VaryingError>
    ensures { MatchResult result (λ _. InterpolationOK kind interpolation) (IsUnfound kind interpolation) }
{
    match kind {
        ScalarKind::Sint | ScalarKind::Uint => {
            if is_flat(interpolation) {
                Ok(())
            } else {
                Err(VaryingError::InvalidInterpolationForInteger)
            }
        }
        ScalarKind::Float => match interpolation {
            Some(_) => Ok(()),
            None => Err(VaryingError::MissingInterpolation),
        },
        ScalarKind::Bool | ScalarKind::AbstractInt | ScalarKind::AbstractFloat => Ok(()),
    }
}

// Whether a single value is a scalar or a vector, with the required interpolation.
fn check_value(
    context: &VaryingContext<'_>,
    ty: Handle<key::IrType>,
    at: &Location,
) -> Result<(), VaryingError>
    ensures { MatchResult result
        (λ _. ValueOK (context_view context.now) ty at.now)
        (IsLocationFault (context_view context.now) ty at.now) }
{
    if is_per_vertex(at.interpolation) {
        return Ok(());
    }
    let Some(kind) = kind_of(&form_of_type(context.types, ty)) else {
        return Err(VaryingError::InvalidType(ty));
    };
    if !is_between(context.direction, context.stage, at.per_primitive) {
        return Ok(());
    }
    check_found(kind, at.interpolation)
}

/// Whether a value of a type is allowed at a location.
pub fn check_location(
    context: &VaryingContext<'_>,
    ty: Handle<key::IrType>,
    at: &Location,
) -> Result<(), VaryingError>
    requires { IsReported context.now }
    ensures { MatchResult result
        (λ _. LocationOK (context_view context.now) ty at.now)
        (IsLocationFault (context_view context.now) ty at.now) }
{
    let element = match check_counted(context, ty, at) {
        Ok(element) => element,
        Err(error) => return Err(error),
    };
    match check_kept(context, ty, element, at) {
        Ok(()) => {}
        Err(error) => return Err(error),
    }
    match check_combination(at) {
        Ok(()) => {}
        Err(error) => return Err(error),
    }
    match check_samples(context, at) {
        Ok(()) => {}
        Err(error) => return Err(error),
    }
    check_value(context, ty, at)
}
