//! The check of `ImageSample`.

ghost use Rattle.std.specs.Prelude.{◌≡◌, ◌↔◌, IsTrue, IfSome, IsSomeAnd, MatchResult, true, false, is_some};
ghost use Rattle.module_context.specs.Refused.{IsRefused};
ghost use Rattle.module_context.specs.OperandView.{scene_in, expressions_in, IsKnown};
ghost use Rattle.ir_kinds.specs.judged.Images.{is_depth, is_multisampled};
ghost use Rattle.ir_kinds.specs.judged.Scalars.{floating};
ghost use Rattle.spec_statements.specs.judged.ImageSamples.{IsFloat32, IsFiltered, IsOffset, IsGathered, IsLevel, ClampOK, ExternalOK, IsSampled, ImageSampleOK};
ghost use Rattle.spec_statements.specs.judged.Scene.{form_among};
ghost use Rattle.spec_statements.specs.judged.Shapes.{IsIntegerScalar, ExactlyIf, coordinate_form, sampler_of};

use crate::levels::{gathers_if, is_clamp, is_float32, is_level, is_outside};
use crate::operands::{along, is_number_if};
use ir_arena::handle::Handle;
use ir_kinds::{ImageClass, ImageDimension, Scalar, ScalarKind, SwizzleComponent};
use ir_types::key;
use module_context::{CheckContext, are_same, image_type_of, refused_unless, sampler_of};
use spec_statements::{ImageType, Sampling};
use typing_errors::ExpressionError;
use typing_forms::Form;

// ---- samplers

// Whether a type is a sampler, either a comparison sampler or not.
fn is_sampler(of: Form, compares: bool) -> bool
    ensures { IsTrue result ↔ IsSomeAnd (sampler_of of) (λ comparison. comparison ≡ compares) }
{
    match sampler_of(of) {
        Some(comparison) => comparison == compares,
        None => false,
    }
}

// Whether the depth reference, if any, is a float and the image is a depth image.
fn is_compared(
    context: &CheckContext<'_>,
    class: ImageClass,
    depth_ref: Option<Handle<key::Expression>>,
) -> bool
    ensures { IsTrue result
        ↔ IfSome depth_ref (λ reference. IsFloat32 (form_among (scene_in context.now).forms reference) × (is_depth class ≡ true)) }
{
    match depth_ref {
        Some(reference) => is_float32(context.form_at(reference)) && class.is_depth(),
        None => true,
    }
}

// ---- texels

// Whether texels can be filtered, or are only gathered if they are not floats.
fn is_filtered(class: ImageClass, gather: Option<SwizzleComponent>) -> bool
    ensures { IsTrue result ↔ IsFiltered class gather }
{
    match class {
        ImageClass::Sampled { kind, .. } => match gather {
            Some(_) => true,
            None => kind == ScalarKind::Float,
        },
        ImageClass::Depth { .. } | ImageClass::External | ImageClass::Storage { .. } => true,
    }
}

// ---- coordinates

// Whether an expression is a coordinate for an image of these dimensions.
fn is_place(
    context: &CheckContext<'_>,
    dim: ImageDimension,
    coordinate: Handle<key::Expression>,
) -> bool
    ensures { IsTrue result ↔ (form_among (scene_in context.now).forms coordinate ≡ coordinate_form dim (floating 4)) }
{
    are_same(context.form_at(coordinate), along(dim, Scalar::F32))
}

// Whether an expression is an offset for an image of these dimensions.
fn is_offset(
    context: &CheckContext<'_>,
    dim: ImageDimension,
    offset: Handle<key::Expression>,
) -> bool
    requires { IsKnown context.now }
    ensures { IsTrue result ↔ IsOffset (expressions_in context.now) (scene_in context.now).forms dim offset }
{
    context.is_const(offset)
        && are_same(context.form_at(offset), along(dim, Scalar::I32))
        && dim != ImageDimension::Cube
}

// Whether an optional offset is valid for an image of these dimensions.
fn is_offset_if(
    context: &CheckContext<'_>,
    dim: ImageDimension,
    offset: Option<Handle<key::Expression>>,
) -> bool
    requires { IsKnown context.now }
    ensures { IsTrue result ↔ IfSome offset (IsOffset (expressions_in context.now) (scene_in context.now).forms dim) }
{
    match offset {
        Some(offset) => is_offset(context, dim, offset),
        None => true,
    }
}

// ---- samples

// Whether the sampler is a comparison sampler exactly if there is a depth reference.
fn is_sampler_met(context: &CheckContext<'_>, image: &ImageType, by: &Sampling) -> bool
    ensures { IsTrue result
        ↔ (IsSomeAnd (sampler_of (form_among (scene_in context.now).forms by.now.sampler)) (λ comparison. comparison ≡ is_some by.now.depth_ref)
        × IfSome by.now.depth_ref (λ reference. IsFloat32 (form_among (scene_in context.now).forms reference) × (is_depth image.now.class ≡ true))) }
{
    is_sampler(context.form_at(by.sampler), by.depth_ref.is_some())
        && is_compared(context, image.class, by.depth_ref)
}

// Whether the image is single-sampled and its texels can be filtered as required.
fn is_class_met(image: &ImageType, by: &Sampling) -> bool
    ensures { IsTrue result ↔ ((is_multisampled image.now.class ≡ false) × IsFiltered image.now.class by.now.gather) }
{
    !image.class.is_multisampled() && is_filtered(image.class, by.gather)
}

// Whether the coordinate, the array index and the offset are valid for the image.
fn is_place_met(context: &CheckContext<'_>, image: &ImageType, by: &Sampling) -> bool
    requires { IsKnown context.now }
    ensures { IsTrue result
        ↔ ((form_among (scene_in context.now).forms by.now.coordinate ≡ coordinate_form image.now.dim (floating 4))
        × ExactlyIf image.now.arrayed by.now.array_index (λ layer. IsIntegerScalar (form_among (scene_in context.now).forms layer))
        × IfSome by.now.offset (IsOffset (expressions_in context.now) (scene_in context.now).forms image.now.dim)) }
{
    is_place(context, image.dim, by.coordinate)
        && is_number_if(context, image.arrayed, by.array_index)
        && is_offset_if(context, image.dim, by.offset)
}

// Whether the gather component and the level are valid.
fn is_detail_met(context: &CheckContext<'_>, image: &ImageType, by: &Sampling) -> bool
    ensures { IsTrue result
        ↔ (IfSome by.now.gather (IsGathered image.now by.now.level)
        × IsLevel (scene_in context.now).forms image.now.class (form_among (scene_in context.now).forms by.now.coordinate) by.now.level) }
{
    gathers_if(image, by.level, by.gather)
        && is_level(context, image.class, by.coordinate, by.level)
}

// Whether clamping is valid, and an external image is sampled at level zero without an offset.
fn is_edge_met(image: &ImageType, by: &Sampling) -> bool
    ensures { IsTrue result
        ↔ (ClampOK image.now by.now.clamp_to_edge × ExternalOK image.now.class by.now.gather by.now.offset by.now.level) }
{
    is_clamp(image, by.clamp_to_edge) && is_outside(image.class, by.gather, by.offset, by.level)
}

// Whether the image can be sampled so.
fn is_sampled(context: &CheckContext<'_>, image: &ImageType, by: &Sampling) -> bool
    requires { IsKnown context.now }
    ensures { IsTrue result ↔ IsSampled (expressions_in context.now) (scene_in context.now).forms image.now by.now }
{
    is_sampler_met(context, image, by)
        && is_class_met(image, by)
        && is_place_met(context, image, by)
        && is_detail_met(context, image, by)
        && is_edge_met(image, by)
}

// Whether a value of a type can be sampled so.
fn is_image_sample(context: &CheckContext<'_>, image: Form, by: &Sampling) -> bool
    requires { IsKnown context.now }
    ensures { IsTrue result ↔ ImageSampleOK (expressions_in context.now) (scene_in context.now).forms image by.now }
{
    match image_type_of(image) {
        Some(image_type) => is_sampled(context, &image_type, by),
        None => false,
    }
}

/// Whether an `ImageSample` is valid: the sampler is a comparison sampler exactly if there is a depth reference, and the
/// coordinate, gather component, offset, level and clamping are allowed for the image's class and dimensions.
///
/// # Errors
///
/// [`ExpressionError::Other`] if it is not.
#[tactic(auto, using(module_context::proofs::Refusals::by_test))]
pub fn check_image_sample(
    context: &CheckContext<'_>,
    image: Handle<key::Expression>,
    by: &Sampling,
) -> Result<(), ExpressionError>
    requires { IsKnown context.now }
    ensures { MatchResult result
        (λ _. ImageSampleOK (expressions_in context.now) (scene_in context.now).forms (form_among (scene_in context.now).forms image) by.now)
        (IsRefused (ImageSampleOK (expressions_in context.now) (scene_in context.now).forms (form_among (scene_in context.now).forms image) by.now)) }
{
    refused_unless(is_image_sample(context, context.form_at(image), by))
}
