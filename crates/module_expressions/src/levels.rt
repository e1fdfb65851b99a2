//! The level of detail, the gather component and the clamping of `ImageSample`.

ghost use Rattle.std.specs.Prelude.{◌≡◌, ◌↔◌, IsTrue, IfSome, Bool};
ghost use Rattle.module_context.specs.OperandView.{scene_in};
ghost use Rattle.spec_statements.specs.judged.ImageSamples.{IsFloat32, HasNeighbours, IsGathered, IsLevel, IsClamped, ClampOK, ExternalOK};
ghost use Rattle.spec_statements.specs.judged.Scene.{form_among};

use ir_arena::handle::Handle;
use ir_kinds::{ImageClass, ImageDimension, Scalar, ScalarKind, SwizzleComponent};
use ir_types::{SampleLevel, key};
use module_context::{CheckContext, are_same, is_integer_scalar};
use spec_statements::ImageType;
use typing_forms::Form;

/// Whether a type is `f32`.
pub(crate) fn is_float32(of: Form) -> bool
    ensures { IsTrue result ↔ IsFloat32 of }
{
    are_same(of, Form::Scalar(Scalar::F32))
}

// ---- levels

// Whether a level is level zero.
const fn is_finest(level: SampleLevel) -> bool
    ensures { IsTrue result ↔ (level ≡ SampleLevel.Zero) }
{
    match level {
        SampleLevel::Zero => true,
        SampleLevel::Auto
        | SampleLevel::Exact(_)
        | SampleLevel::Bias(_)
        | SampleLevel::Gradient { .. } => false,
    }
}

// Whether an expression is an exact level of an image.
fn is_exact(context: &CheckContext<'_>, class: ImageClass, level: Handle<key::Expression>) -> bool
    ensures { IsTrue result ↔ IsLevel (scene_in context.now).forms class (form_among (scene_in context.now).forms level) (SampleLevel.Exact level) }
{
    is_float32(context.form_at(level))
        || (class.is_depth() && is_integer_scalar(context.form_at(level)))
}

// Whether two expressions are gradients of a coordinate.
fn are_gradients(
    context: &CheckContext<'_>,
    coordinate: Handle<key::Expression>,
    right: Handle<key::Expression>,
    below: Handle<key::Expression>,
) -> bool
    ensures { IsTrue result
        ↔ ((form_among (scene_in context.now).forms right ≡ form_among (scene_in context.now).forms coordinate) × (form_among (scene_in context.now).forms below ≡ form_among (scene_in context.now).forms coordinate)) }
{
    are_same(context.form_at(right), context.form_at(coordinate))
        && are_same(context.form_at(below), context.form_at(coordinate))
}

/// Whether an image may be sampled at a level.
pub(crate) fn is_level(
    context: &CheckContext<'_>,
    class: ImageClass,
    coordinate: Handle<key::Expression>,
    level: SampleLevel,
) -> bool
    ensures { IsTrue result ↔ IsLevel (scene_in context.now).forms class (form_among (scene_in context.now).forms coordinate) level }
{
    match level {
        SampleLevel::Auto | SampleLevel::Zero => true,
        SampleLevel::Exact(exact) => is_exact(context, class, exact),
        SampleLevel::Bias(bias) => is_float32(context.form_at(bias)),
        SampleLevel::Gradient { x, y } => are_gradients(context, coordinate, x, y),
    }
}

// ---- gather

// Whether images of these dimensions support gather.
const fn has_neighbours(dim: ImageDimension) -> bool
    ensures { IsTrue result ↔ HasNeighbours dim }
{
    match dim {
        ImageDimension::D2 | ImageDimension::Cube => true,
        ImageDimension::D1 | ImageDimension::D3 => false,
    }
}

// Whether a component of an image may be gathered at a level.
fn gathers(image: &ImageType, level: SampleLevel, letter: SwizzleComponent) -> bool
    ensures { IsTrue result ↔ IsGathered image.now level letter }
{
    has_neighbours(image.dim)
        && is_finest(level)
        && (!image.class.is_depth() || letter == SwizzleComponent::X)
}

/// Whether an optional gather component is valid for an image at a level.
pub(crate) fn gathers_if(
    image: &ImageType,
    level: SampleLevel,
    gather: Option<SwizzleComponent>,
) -> bool
    ensures { IsTrue result ↔ IfSome gather (IsGathered image.now level) }
{
    match gather {
        Some(letter) => gathers(image, level, letter),
        None => true,
    }
}

// ---- clamping to the edge

// Whether an image is external.
const fn is_external(class: ImageClass) -> bool
    ensures { IsTrue result ↔ (class ≡ ImageClass.External) }
{
    match class {
        ImageClass::External => true,
        ImageClass::Sampled { .. } | ImageClass::Depth { .. } | ImageClass::Storage { .. } => false,
    }
}

// Whether the texels of an image are floats.
fn is_of_floats(class: ImageClass) -> bool
    ensures { IsTrue result ↔ ((multi : Bool) × (class ≡ ImageClass.Sampled ScalarKind.Float multi)) }
{
    match class {
        ImageClass::Sampled { kind, .. } => kind == ScalarKind::Float,
        ImageClass::Depth { .. } | ImageClass::External | ImageClass::Storage { .. } => false,
    }
}

// Whether coordinates of an image may be clamped to the edge.
fn is_clamped(image: &ImageType) -> bool
    ensures { IsTrue result ↔ IsClamped image.now }
{
    image.dim == ImageDimension::D2 && !image.arrayed && is_of_floats(image.class)
}

/// Whether the clamping of an image is valid.
pub(crate) fn is_clamp(image: &ImageType, clamp_to_edge: bool) -> bool
    ensures { IsTrue result ↔ ClampOK image.now clamp_to_edge }
{
    if clamp_to_edge {
        is_external(image.class) || is_clamped(image)
    } else {
        !is_external(image.class)
    }
}

/// Whether an image, if it is external, is sampled at level zero, without gather or offset.
pub(crate) fn is_outside(
    class: ImageClass,
    gather: Option<SwizzleComponent>,
    offset: Option<Handle<key::Expression>>,
    level: SampleLevel,
) -> bool
    ensures { IsTrue result ↔ ExternalOK class gather offset level }
{
    !is_external(class) || (is_finest(level) && gather.is_none() && offset.is_none())
}
