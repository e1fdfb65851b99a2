//! The checks of `ImageLoad` and `ImageQuery`.

ghost use Rattle.std.specs.Prelude.{◌↔◌, IsTrue, MatchResult};
ghost use Rattle.module_context.specs.Refused.{IsRefused};
ghost use Rattle.module_context.specs.OperandView.{scene_in};
ghost use Rattle.spec_statements.specs.judged.ImageLoads.{IsFlat, IsTexelCoordinate, IsReadable, IsTexelLoad, ImageLoadOK, IsAnswered, ImageQueryOK};
ghost use Rattle.spec_statements.specs.judged.Scene.{form_among};

use crate::operands::{along, is_number_if};
use bitflags::Flags;
use ir_arena::handle::Handle;
use ir_flags::StorageAccess;
use ir_kinds::{ImageClass, ImageDimension};
use ir_types::{ImageQuery, key};
use module_context::{
    CheckContext, are_same, image_type_of, is_integer, is_integer_scalar, refused_unless, shaped_of,
};
use spec_statements::ImageType;
use typing_errors::ExpressionError;
use typing_forms::Form;

// ---- loads

// Whether texels of images of these dimensions can be loaded by integer coordinates.
const fn is_flat(dim: ImageDimension) -> bool
    ensures { IsTrue result ↔ IsFlat dim }
{
    match dim {
        ImageDimension::D1 | ImageDimension::D2 | ImageDimension::D3 => true,
        ImageDimension::Cube => false,
    }
}

/// Whether a type is that of an integer texel coordinate.
pub fn is_texel(dim: ImageDimension, coordinate: &Form) -> bool
    ensures { IsTrue result ↔ IsTexelCoordinate dim coordinate.now }
{
    match shaped_of(*coordinate) {
        Some(shaped) => {
            is_flat(dim)
                && is_integer(shaped.scalar.kind)
                && are_same(*coordinate, along(dim, shaped.scalar))
        }
        None => false,
    }
}

// Whether an image class supports loads.
fn is_readable(class: ImageClass) -> bool
    ensures { IsTrue result ↔ IsReadable class }
{
    match class {
        ImageClass::Storage { access, .. } => access.contains(StorageAccess::LOAD),
        ImageClass::Sampled { .. } | ImageClass::Depth { .. } | ImageClass::External => true,
    }
}

// Whether a texel can be loaded from an image.
fn is_texel_load(
    context: &CheckContext<'_>,
    image: &ImageType,
    coordinate: Handle<key::Expression>,
    array_index: Option<Handle<key::Expression>>,
    sample: Option<Handle<key::Expression>>,
    level: Option<Handle<key::Expression>>,
) -> bool
    ensures { IsTrue result ↔ IsTexelLoad (scene_in context.now).forms image.now coordinate array_index sample level }
{
    let place = context.form_at(coordinate);
    is_texel(image.dim, &place)
        && is_number_if(context, image.arrayed, array_index)
        && is_number_if(context, image.class.is_multisampled(), sample)
        && is_number_if(context, image.class.is_mipmapped(), level)
        && is_readable(image.class)
}

// Whether a texel can be loaded from a value of a type.
fn is_image_load(
    context: &CheckContext<'_>,
    image: Form,
    coordinate: Handle<key::Expression>,
    array_index: Option<Handle<key::Expression>>,
    sample: Option<Handle<key::Expression>>,
    level: Option<Handle<key::Expression>>,
) -> bool
    ensures { IsTrue result ↔ ImageLoadOK (scene_in context.now).forms image coordinate array_index sample level }
{
    match image_type_of(image) {
        Some(image_type) => {
            is_texel_load(context, &image_type, coordinate, array_index, sample, level)
        }
        None => false,
    }
}

/// Whether an `ImageLoad` is valid: it has an integer coordinate of the image's dimensions, an array index, a sample and a level
/// exactly if the image has several, and the image is readable.
///
/// # Errors
///
/// [`ExpressionError::Other`] if it is not.
#[tactic(auto, using(module_context::proofs::Refusals::by_test))]
pub fn check_image_load(
    context: &CheckContext<'_>,
    image: Handle<key::Expression>,
    coordinate: Handle<key::Expression>,
    array_index: Option<Handle<key::Expression>>,
    sample: Option<Handle<key::Expression>>,
    level: Option<Handle<key::Expression>>,
) -> Result<(), ExpressionError>
    ensures { MatchResult result
        (λ _. ImageLoadOK (scene_in context.now).forms (form_among (scene_in context.now).forms image) coordinate array_index sample level)
        (IsRefused (ImageLoadOK (scene_in context.now).forms (form_among (scene_in context.now).forms image) coordinate array_index sample level)) }
{
    let of = context.form_at(image);
    refused_unless(is_image_load(context, of, coordinate, array_index, sample, level))
}

// ---- queries

// Whether a size query of an image may have this level, if one is given.
fn has_size(
    context: &CheckContext<'_>,
    image: &ImageType,
    level: Option<Handle<key::Expression>>,
) -> bool
    ensures { IsTrue result ↔ IsAnswered (scene_in context.now).forms (ImageQuery.Size level) image.now }
{
    match level {
        Some(level) => { image.class.is_mipmapped() && is_integer_scalar(context.form_at(level)) }
        None => true,
    }
}

// Whether a query is valid for an image.
fn is_answered(context: &CheckContext<'_>, image: &ImageType, query: ImageQuery) -> bool
    ensures { IsTrue result ↔ IsAnswered (scene_in context.now).forms query image.now }
{
    match query {
        ImageQuery::Size { level } => has_size(context, image, level),
        ImageQuery::NumLevels => image.class.is_mipmapped(),
        ImageQuery::NumLayers => image.arrayed,
        ImageQuery::NumSamples => image.class.is_multisampled(),
    }
}

// Whether a query is valid for a value of a type.
fn is_image_query(context: &CheckContext<'_>, image: Form, query: ImageQuery) -> bool
    ensures { IsTrue result ↔ ImageQueryOK (scene_in context.now).forms image query }
{
    match image_type_of(image) {
        Some(image_type) => is_answered(context, &image_type, query),
        None => false,
    }
}

/// Whether an `ImageQuery` is valid: the operand is an image, and levels, layers and samples are queried only if the image has
/// several.
///
/// # Errors
///
/// [`ExpressionError::Other`] if it is not.
#[tactic(auto, using(module_context::proofs::Refusals::by_test))]
pub fn check_image_query(
    context: &CheckContext<'_>,
    image: Handle<key::Expression>,
    query: ImageQuery,
) -> Result<(), ExpressionError>
    ensures { MatchResult result
        (λ _. ImageQueryOK (scene_in context.now).forms (form_among (scene_in context.now).forms image) query)
        (IsRefused (ImageQueryOK (scene_in context.now).forms (form_among (scene_in context.now).forms image) query)) }
{
    refused_unless(is_image_query(context, context.form_at(image), query))
}
