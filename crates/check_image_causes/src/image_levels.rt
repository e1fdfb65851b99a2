//! The broken rules of the level of detail, of gather and of clamping in `ImageSample`.

ghost use Rattle.std.specs.Prelude.{◌≡◌, ◌↔◌, IsTrue, IfSome, MatchOption, Bool};
ghost use Rattle.check_image_causes.specs.ImageLevels.{BrokenClamp, BrokenDetail, BrokenEdge, BrokenGather, BrokenLevel, BrokenOutside};
ghost use Rattle.module_context.specs.OperandView.{scene_in};
ghost use Rattle.spec_statements.specs.judged.ImageSamples.{IsFloat32, HasNeighbours, IsGathered, IsLevel, IsClamped, ClampOK, ExternalOK};
ghost use Rattle.spec_statements.specs.judged.Scene.{form_among};

use ir_arena::handle::Handle;
use ir_kinds::{ImageClass, ImageDimension, Scalar, ScalarKind, SwizzleComponent};
use ir_types::{SampleLevel, key};
use module_context::{CheckContext, are_same, is_integer_scalar};
use spec_statements::{ImageType, Sampling};
use typing_forms::Form;

/// A broken rule of gather or of the level.
#[derive(Clone, Copy)]
pub enum DetailCause {
    /// A gather requires a two-dimensional image or a cube.
    Neighbours(ImageDimension),
    /// A gather takes level zero only.
    GatherLevel,
    /// A gather from a depth image takes the first component only.
    GatherDepth(SwizzleComponent),
    /// The level has this type, which is neither f32 nor, for a depth image, an integer.
    Exact(Form),
    /// The bias has this type, which is not f32.
    Bias(Form),
    /// A gradient has the first type, but must have the coordinate's, the second.
    Gradient(Form, Form),
}

/// A broken rule of clamping or of external images.
#[derive(Clone, Copy)]
pub enum EdgeCause {
    /// The coordinate is clamped, but the image is not a non-arrayed two-dimensional image of floats.
    Clamped,
    /// The image is external, but the coordinate is not clamped.
    Unclamped,
    /// The image is external, but not sampled at level zero.
    Level,
    /// An external image does not support gather.
    Gathered,
    /// An external image does not support an offset.
    Offset,
}

/// Whether a type is `f32`.
pub(crate) fn is_float32(of: Form) -> bool
    ensures { IsTrue result ↔ IsFloat32 of }
{
    are_same(of, Form::Scalar(Scalar::F32))
}

// ---- levels

// Whether a level is level zero.
const fn is_finest(level: SampleLevel) -> bool
    ensures { IsTrue result ↔ (level ≡ SampleLevel.Zero) }
{
    match level {
        SampleLevel::Zero => true,
        SampleLevel::Auto
        | SampleLevel::Exact(_)
        | SampleLevel::Bias(_)
        | SampleLevel::Gradient { .. } => false,
    }
}

// The broken rule of an exact level.
fn broken_exact(
    context: &CheckContext<'_>,
    class: ImageClass,
    coordinate: &Form,
    level: Handle<key::Expression>,
) -> Option<DetailCause>
    ensures { MatchOption result
        (IsLevel (scene_in context.now).forms class coordinate.now (SampleLevel.Exact level))
        (BrokenLevel (scene_in context.now).forms class coordinate.now (SampleLevel.Exact level)) }
{
    if is_float32(context.form_at(level)) {
        return None;
    }
    if class.is_depth() && is_integer_scalar(context.form_at(level)) {
        return None;
    }
    Some(DetailCause::Exact(context.form_at(level)))
}

// The broken rule of the gradients of a coordinate.
fn broken_gradient(
    context: &CheckContext<'_>,
    class: ImageClass,
    coordinate: &Form,
    x: Handle<key::Expression>,
    y: Handle<key::Expression>,
) -> Option<DetailCause>
    ensures { MatchOption result
        (IsLevel (scene_in context.now).forms class coordinate.now (SampleLevel.Gradient x y))
        (BrokenLevel (scene_in context.now).forms class coordinate.now (SampleLevel.Gradient x y)) }
{
    let across = context.form_at(x);
    if !are_same(across, *coordinate) {
        return Some(DetailCause::Gradient(context.form_at(x), *coordinate));
    }
    let down = context.form_at(y);
    if !are_same(down, *coordinate) {
        return Some(DetailCause::Gradient(context.form_at(y), *coordinate));
    }
    None
}

// The broken rule of a level.
fn broken_level(
    context: &CheckContext<'_>,
    class: ImageClass,
    coordinate: &Form,
    level: SampleLevel,
) -> Option<DetailCause>
    ensures { MatchOption result
        (IsLevel (scene_in context.now).forms class coordinate.now level)
        (BrokenLevel (scene_in context.now).forms class coordinate.now level) }
{
    match level {
        SampleLevel::Auto | SampleLevel::Zero => None,
        SampleLevel::Exact(exact) => broken_exact(context, class, coordinate, exact),
        SampleLevel::Bias(bias) => {
            if is_float32(context.form_at(bias)) {
                None
            } else {
                Some(DetailCause::Bias(context.form_at(bias)))
            }
        }
        SampleLevel::Gradient { x, y } => broken_gradient(context, class, coordinate, x, y),
    }
}

// ---- gather

// Whether images of these dimensions support gather.
const fn has_neighbours(dim: ImageDimension) -> bool
    ensures { IsTrue result ↔ HasNeighbours dim }
{
    match dim {
        ImageDimension::D2 | ImageDimension::Cube => true,
        ImageDimension::D1 | ImageDimension::D3 => false,
    }
}

// The first broken rule of gather.
fn broken_gather(
    image: &ImageType,
    level: SampleLevel,
    letter: SwizzleComponent,
) -> Option<DetailCause>
    ensures { MatchOption result (IsGathered image.now level letter) (BrokenGather image.now level letter) }
{
    if !has_neighbours(image.dim) {
        return Some(DetailCause::Neighbours(image.dim));
    }
    if !is_finest(level) {
        return Some(DetailCause::GatherLevel);
    }
    if image.class.is_depth() && letter != SwizzleComponent::X {
        return Some(DetailCause::GatherDepth(letter));
    }
    None
}

/// The first broken rule of gather or of the level.
pub(crate) fn broken_detail(
    context: &CheckContext<'_>,
    image: &ImageType,
    by: &Sampling,
) -> Option<DetailCause>
    ensures { MatchOption result
        (IfSome by.now.gather (IsGathered image.now by.now.level)
        × IsLevel (scene_in context.now).forms image.now.class (form_among (scene_in context.now).forms by.now.coordinate) by.now.level)
        (BrokenDetail (scene_in context.now).forms image.now by.now) }
{
    let coordinate = context.form_at(by.coordinate);
    match by.gather {
        Some(letter) => match broken_gather(image, by.level, letter) {
            Some(cause) => Some(cause),
            None => broken_level(context, image.class, &coordinate, by.level),
        },
        None => broken_level(context, image.class, &coordinate, by.level),
    }
}

// ---- clamping to the edge

// Whether an image is external.
const fn is_external(class: ImageClass) -> bool
    ensures { IsTrue result ↔ (class ≡ ImageClass.External) }
{
    match class {
        ImageClass::External => true,
        ImageClass::Sampled { .. } | ImageClass::Depth { .. } | ImageClass::Storage { .. } => false,
    }
}

// Whether the texels of an image are floats.
fn is_of_floats(class: ImageClass) -> bool
    ensures { IsTrue result ↔ ((multi : Bool) × (class ≡ ImageClass.Sampled ScalarKind.Float multi)) }
{
    match class {
        ImageClass::Sampled { kind, .. } => kind == ScalarKind::Float,
        ImageClass::Depth { .. } | ImageClass::External | ImageClass::Storage { .. } => false,
    }
}

// Whether coordinates of an image may be clamped to the edge.
fn is_clamped(image: &ImageType) -> bool
    ensures { IsTrue result ↔ IsClamped image.now }
{
    image.dim == ImageDimension::D2 && !image.arrayed && is_of_floats(image.class)
}

// The broken rule of clamping.
fn broken_clamp(image: &ImageType, clamp_to_edge: bool) -> Option<EdgeCause>
    ensures { MatchOption result (ClampOK image.now clamp_to_edge) (BrokenClamp image.now clamp_to_edge) }
{
    if clamp_to_edge {
        if is_external(image.class) || is_clamped(image) {
            None
        } else {
            Some(EdgeCause::Clamped)
        }
    } else if is_external(image.class) {
        Some(EdgeCause::Unclamped)
    } else {
        None
    }
}

// The first broken rule of external images.
fn broken_outside(class: ImageClass, by: &Sampling) -> Option<EdgeCause>
    ensures { MatchOption result
        (ExternalOK class by.now.gather by.now.offset by.now.level)
        (BrokenOutside class by.now) }
{
    if !is_external(class) {
        return None;
    }
    if !is_finest(by.level) {
        return Some(EdgeCause::Level);
    }
    if by.gather.is_some() {
        return Some(EdgeCause::Gathered);
    }
    if by.offset.is_some() {
        return Some(EdgeCause::Offset);
    }
    None
}

/// The first broken rule of clamping or of external images.
pub(crate) fn broken_edge(image: &ImageType, by: &Sampling) -> Option<EdgeCause>
    ensures { MatchOption result
        (ClampOK image.now by.now.clamp_to_edge × ExternalOK image.now.class by.now.gather by.now.offset by.now.level)
        (BrokenEdge image.now by.now) }
{
    match broken_clamp(image, by.clamp_to_edge) {
        Some(cause) => Some(cause),
        None => broken_outside(image.class, by),
    }
}
