//! The broken rules of `ImageSample`.

ghost use Rattle.std.specs.Prelude.{◌≡◌, ◌↔◌, IsTrue, IfSome, IsSomeAnd, MatchOption, true, false};
ghost use Rattle.check_image_causes.specs.ImageSamples.{BrokenCompare, BrokenPlace, BrokenOffset, BrokenSampled, BrokenSample, BrokenSampler, BrokenTexels, SamplerOK};
ghost use Rattle.ir_kinds.specs.judged.Images.{is_depth, is_multisampled};
ghost use Rattle.ir_kinds.specs.judged.Scalars.{floating};
ghost use Rattle.module_context.specs.OperandView.{scene_in, expressions_in};
ghost use Rattle.typing_layout.specs.judged.Constness.{AreKinds, IsOfKind};
ghost use Rattle.typing_layout.specs.declared.constness.ExpressionKind.TheVariants.{Const};
ghost use Rattle.spec_statements.specs.judged.ImageSamples.{IsFloat32, IsFiltered, IsOffset, IsSampled, ImageSampleOK};
ghost use Rattle.spec_statements.specs.judged.Scene.{form_among};
ghost use Rattle.spec_statements.specs.judged.Shapes.{IsIntegerScalar, ExactlyIf, coordinate_form};

use crate::image_levels::{DetailCause, EdgeCause, broken_detail, broken_edge, is_float32};
use crate::numbers::{NumberCause, along, broken_number};
use ir_arena::handle::Handle;
use ir_kinds::{ImageClass, ImageDimension, Scalar, ScalarKind};
use ir_types::key;
use module_context::{CheckContext, are_same, image_type_of, sampler_of};
use spec_statements::{ImageType, Sampling};
use typing_forms::Form;

/// A broken rule of the sampler or of the depth reference.
#[derive(Clone, Copy)]
pub enum SamplerCause {
    /// The operand has this type, which is not a sampler.
    NoSampler(Form),
    /// A comparison sampler without a depth reference, or a depth reference with another sampler.
    Comparison {
        /// Whether it is a comparison sampler.
        compares: bool,
    },
    /// The depth reference has this type, which is not f32.
    Reference(Form),
    /// There is a depth reference, but the image is not a depth image.
    NoDepth,
}

/// A broken rule of the sampled image.
#[derive(Clone, Copy)]
pub enum TexelsCause {
    /// The image is multisampled.
    Multisampled,
    /// Its texels have this scalar kind, but only floats can be filtered.
    Unfiltered(ScalarKind),
}

/// A broken rule of the coordinate, the array index or the offset.
#[derive(Clone, Copy)]
pub enum PlaceCause {
    /// The coordinate has the first type, but must have the second.
    Coordinate(Form, Form),
    /// A rule of the array index.
    Layer(NumberCause),
    /// The offset is not a const-expression.
    Varying,
    /// The offset has the first type, but must have the second.
    Offset(Form, Form),
    /// There is an offset, but the image is a cube.
    Cube,
}

/// A broken rule of an `ImageSample`.
#[derive(Clone, Copy)]
pub enum SampleCause {
    /// The operand has this type, which is not an image.
    NoImage(Form),
    /// A rule of the sampler.
    Sampler(SamplerCause),
    /// A rule of the sampled image.
    Texels(TexelsCause),
    /// A rule of the coordinate, the array index or the offset.
    Place(PlaceCause),
    /// A rule of gather or of the level.
    Detail(DetailCause),
    /// A rule of clamping or of external images.
    Edge(EdgeCause),
}

// ---- samplers

// The broken rule of the depth reference, if there is one.
fn broken_compare(
    context: &CheckContext<'_>,
    class: ImageClass,
    depth_ref: Option<Handle<key::Expression>>,
) -> Option<SamplerCause>
    ensures { MatchOption result
        (IfSome depth_ref (λ reference. IsFloat32 (form_among (scene_in context.now).forms reference) × (is_depth class ≡ true)))
        (BrokenCompare (scene_in context.now).forms class depth_ref) }
{
    match depth_ref {
        Some(reference) => {
            if !is_float32(context.form_at(reference)) {
                Some(SamplerCause::Reference(context.form_at(reference)))
            } else if class.is_depth() {
                None
            } else {
                Some(SamplerCause::NoDepth)
            }
        }
        None => None,
    }
}

// The first broken rule of the sampler or of the depth reference.
fn broken_sampler(
    context: &CheckContext<'_>,
    class: ImageClass,
    by: &Sampling,
) -> Option<SamplerCause>
    ensures { MatchOption result
        (SamplerOK (scene_in context.now).forms class by.now)
        (BrokenSampler (scene_in context.now).forms class by.now) }
{
    match sampler_of(context.form_at(by.sampler)) {
        Some(compares) => {
            if compares == by.depth_ref.is_some() {
                broken_compare(context, class, by.depth_ref)
            } else {
                Some(SamplerCause::Comparison { compares })
            }
        }
        None => Some(SamplerCause::NoSampler(context.form_at(by.sampler))),
    }
}

// ---- texels

// The first broken rule of the sampled image.
fn broken_texels(class: ImageClass, by: &Sampling) -> Option<TexelsCause>
    ensures { MatchOption result
        ((is_multisampled class ≡ false) × IsFiltered class by.now.gather)
        (BrokenTexels class by.now.gather) }
{
    if class.is_multisampled() {
        return Some(TexelsCause::Multisampled);
    }
    match class {
        ImageClass::Sampled { kind, .. } => {
            if by.gather.is_some() || kind == ScalarKind::Float {
                None
            } else {
                Some(TexelsCause::Unfiltered(kind))
            }
        }
        ImageClass::Depth { .. } | ImageClass::External | ImageClass::Storage { .. } => None,
    }
}

// ---- coordinates

// Whether an expression is a const-expression.
fn is_const(context: &CheckContext<'_>, handle: Handle<key::Expression>) -> bool
    requires { AreKinds (expressions_in context.now) context.now.kinds.now }
    ensures { IsTrue result ↔ IsOfKind (expressions_in context.now) handle Const }
{
    handle.index() < context.expressions.len() && context.kinds.is_const(handle)
}

// The first broken rule of an offset.
fn broken_offset(
    context: &CheckContext<'_>,
    dim: ImageDimension,
    offset: Handle<key::Expression>,
) -> Option<PlaceCause>
    requires { AreKinds (expressions_in context.now) context.now.kinds.now }
    ensures { MatchOption result
        (IsOffset (expressions_in context.now) (scene_in context.now).forms dim offset)
        (BrokenOffset (expressions_in context.now) (scene_in context.now).forms dim offset) }
{
    if dim == ImageDimension::Cube {
        return Some(PlaceCause::Cube);
    }
    if !is_const(context, offset) {
        return Some(PlaceCause::Varying);
    }
    let given = context.form_at(offset);
    if are_same(given, along(dim, Scalar::I32)) {
        None
    } else {
        Some(PlaceCause::Offset(context.form_at(offset), along(dim, Scalar::I32)))
    }
}

// The first broken rule of an optional offset.
fn broken_offset_if(
    context: &CheckContext<'_>,
    dim: ImageDimension,
    offset: Option<Handle<key::Expression>>,
) -> Option<PlaceCause>
    requires { AreKinds (expressions_in context.now) context.now.kinds.now }
    ensures { MatchOption result
        (IfSome offset (IsOffset (expressions_in context.now) (scene_in context.now).forms dim))
        (λ cause. IsSomeAnd offset (λ e. BrokenOffset (expressions_in context.now) (scene_in context.now).forms dim e cause)) }
{
    match offset {
        Some(offset) => broken_offset(context, dim, offset),
        None => None,
    }
}

// The first broken rule of the coordinate, the array index or the offset.
fn broken_place(context: &CheckContext<'_>, image: &ImageType, by: &Sampling) -> Option<PlaceCause>
    requires { AreKinds (expressions_in context.now) context.now.kinds.now }
    ensures { MatchOption result
        ((form_among (scene_in context.now).forms by.now.coordinate ≡ coordinate_form image.now.dim (floating 4))
        × ExactlyIf image.now.arrayed by.now.array_index (λ layer. IsIntegerScalar (form_among (scene_in context.now).forms layer))
        × IfSome by.now.offset (IsOffset (expressions_in context.now) (scene_in context.now).forms image.now.dim))
        (BrokenPlace (expressions_in context.now) (scene_in context.now).forms image.now by.now) }
{
    let given = context.form_at(by.coordinate);
    if !are_same(given, along(image.dim, Scalar::F32)) {
        return Some(PlaceCause::Coordinate(
            context.form_at(by.coordinate),
            along(image.dim, Scalar::F32),
        ));
    }
    if let Some(cause) = broken_number(context, image.arrayed, by.array_index) {
        return Some(PlaceCause::Layer(cause));
    }
    broken_offset_if(context, image.dim, by.offset)
}

// ---- samples

// The first broken rule of a sample of an image.
fn broken_sampled(
    context: &CheckContext<'_>,
    image: &ImageType,
    by: &Sampling,
) -> Option<SampleCause>
    requires { AreKinds (expressions_in context.now) context.now.kinds.now }
    ensures { MatchOption result
        (IsSampled (expressions_in context.now) (scene_in context.now).forms image.now by.now)
        (BrokenSampled (expressions_in context.now) (scene_in context.now).forms image.now by.now) }
{
    if let Some(cause) = broken_sampler(context, image.class, by) {
        return Some(SampleCause::Sampler(cause));
    }
    if let Some(cause) = broken_texels(image.class, by) {
        return Some(SampleCause::Texels(cause));
    }
    if let Some(cause) = broken_place(context, image, by) {
        return Some(SampleCause::Place(cause));
    }
    if let Some(cause) = broken_detail(context, image, by) {
        return Some(SampleCause::Detail(cause));
    }
    match broken_edge(image, by) {
        Some(cause) => Some(SampleCause::Edge(cause)),
        None => None,
    }
}

/// The first broken rule of an `ImageSample`, if any: of the sampler, of the sampled image, of the coordinate, of gather
/// and of the level, of clamping and of external images.
pub fn broken_sample(context: &CheckContext<'_>, image: &Form, by: &Sampling) -> Option<SampleCause>
    requires { AreKinds (expressions_in context.now) context.now.kinds.now }
    ensures { MatchOption result
        (ImageSampleOK (expressions_in context.now) (scene_in context.now).forms image.now by.now)
        (BrokenSample (expressions_in context.now) (scene_in context.now).forms image.now by.now) }
{
    match image_type_of(*image) {
        Some(image_type) => broken_sampled(context, &image_type, by),
        None => Some(SampleCause::NoImage(*image)),
    }
}
