//! The broken rules of `ImageLoad` and `ImageQuery`.

ghost use Rattle.std.specs.Prelude.{◌≡◌, ◌↔◌, IsTrue, MatchOption};
ghost use Rattle.check_image_causes.specs.ImageLoads.{BrokenTexel, BrokenTexelLoad, BrokenLoad, BrokenAnswer, BrokenQuery};
ghost use Rattle.module_context.specs.OperandView.{scene_in};
ghost use Rattle.spec_statements.specs.judged.ImageLoads.{IsFlat, IsTexelCoordinate, IsReadable, IsTexelLoad, ImageLoadOK, IsAnswered, ImageQueryOK};
ghost use Rattle.spec_statements.specs.judged.Scene.{form_among};

use crate::numbers::{NumberCause, along, broken_number};
use bitflags::Flags;
use ir_arena::handle::Handle;
use ir_flags::StorageAccess;
use ir_kinds::{ImageClass, ImageDimension};
use ir_types::{ImageQuery, key};
use module_context::{
    CheckContext, are_same, image_type_of, is_integer, is_integer_scalar, shaped_of,
};
use spec_statements::ImageType;
use typing_forms::Form;

/// A broken rule of a texel coordinate.
#[derive(Clone, Copy)]
pub enum TexelCause {
    /// The image is a cube, whose texels have no integer coordinates.
    Cube,
    /// The coordinate has this type, which is not an integer scalar or vector.
    NoInteger(Form),
    /// The coordinate has the first type, but must have the second.
    Coordinate(Form, Form),
}

/// A broken rule of an `ImageLoad`.
#[derive(Clone, Copy)]
pub enum LoadCause {
    /// The operand has this type, which is not an image.
    NoImage(Form),
    /// A rule of the coordinate.
    Texel(TexelCause),
    /// A rule of the array index.
    Layer(NumberCause),
    /// A rule of the sample index.
    Sample(NumberCause),
    /// A rule of the level.
    Level(NumberCause),
    /// The storage image's access does not include LOAD.
    NoLoad,
}

/// A broken rule of an `ImageQuery`.
#[derive(Clone, Copy)]
pub enum QueryCause {
    /// The operand has this type, which is not an image.
    NoImage(Form),
    /// The image has no mip levels.
    NoLevels,
    /// The level has this type, which is not an integer scalar.
    Level(Form),
    /// The image is not arrayed.
    NoLayers,
    /// The image is not multisampled.
    NoSamples,
}

// ---- loads

// Whether texels of images of these dimensions have integer coordinates.
const fn is_flat(dim: ImageDimension) -> bool
    ensures { IsTrue result ↔ IsFlat dim }
{
    match dim {
        ImageDimension::D1 | ImageDimension::D2 | ImageDimension::D3 => true,
        ImageDimension::Cube => false,
    }
}

// The first broken rule of an integer texel coordinate.
fn broken_texel(dim: ImageDimension, coordinate: &Form) -> Option<TexelCause>
    ensures { MatchOption result (IsTexelCoordinate dim coordinate.now) (BrokenTexel dim coordinate.now) }
{
    if !is_flat(dim) {
        return Some(TexelCause::Cube);
    }
    let Some(shaped) = shaped_of(*coordinate) else {
        return Some(TexelCause::NoInteger(*coordinate));
    };
    if !is_integer(shaped.scalar.kind) {
        return Some(TexelCause::NoInteger(*coordinate));
    }
    if !are_same(*coordinate, along(dim, shaped.scalar)) {
        return Some(TexelCause::Coordinate(*coordinate, along(dim, shaped.scalar)));
    }
    None
}

// Whether an image class supports loads.
fn is_readable(class: ImageClass) -> bool
    ensures { IsTrue result ↔ IsReadable class }
{
    match class {
        ImageClass::Storage { access, .. } => access.contains(StorageAccess::LOAD),
        ImageClass::Sampled { .. } | ImageClass::Depth { .. } | ImageClass::External => true,
    }
}

/// The operands of an `ImageLoad`, apart from the image.
#[derive(Clone, Copy)]
pub struct TexelLoad {
    /// The coordinate.
    pub coordinate: Handle<key::Expression>,
    /// The array index.
    pub array_index: Option<Handle<key::Expression>>,
    /// The sample index.
    pub sample: Option<Handle<key::Expression>>,
    /// The level.
    pub level: Option<Handle<key::Expression>>,
}

// The first broken rule of a load from an image.
fn broken_texel_load(
    context: &CheckContext<'_>,
    image: &ImageType,
    by: &TexelLoad,
) -> Option<LoadCause>
    ensures { MatchOption result
        (IsTexelLoad (scene_in context.now).forms image.now by.now.coordinate by.now.array_index by.now.sample by.now.level)
        (BrokenTexelLoad (scene_in context.now).forms image.now by.now) }
{
    let place = context.form_at(by.coordinate);
    if let Some(cause) = broken_texel(image.dim, &place) {
        return Some(LoadCause::Texel(cause));
    }
    if let Some(cause) = broken_number(context, image.arrayed, by.array_index) {
        return Some(LoadCause::Layer(cause));
    }
    if let Some(cause) = broken_number(context, image.class.is_multisampled(), by.sample) {
        return Some(LoadCause::Sample(cause));
    }
    if let Some(cause) = broken_number(context, image.class.is_mipmapped(), by.level) {
        return Some(LoadCause::Level(cause));
    }
    if is_readable(image.class) {
        None
    } else {
        Some(LoadCause::NoLoad)
    }
}

/// The first broken rule of an `ImageLoad`, if any: an integer coordinate, an array index, a sample index and a level
/// exactly if the image has several, and a readable image.
pub fn broken_load(context: &CheckContext<'_>, image: &Form, by: &TexelLoad) -> Option<LoadCause>
    ensures { MatchOption result
        (ImageLoadOK (scene_in context.now).forms image.now by.now.coordinate by.now.array_index by.now.sample by.now.level)
        (BrokenLoad (scene_in context.now).forms image.now by.now) }
{
    match image_type_of(*image) {
        Some(image_type) => broken_texel_load(context, &image_type, by),
        None => Some(LoadCause::NoImage(*image)),
    }
}

// ---- queries

// The broken rule of the level of a size query, if one is given.
fn broken_size(
    context: &CheckContext<'_>,
    image: &ImageType,
    level: Option<Handle<key::Expression>>,
) -> Option<QueryCause>
    ensures { MatchOption result
        (IsAnswered (scene_in context.now).forms (ImageQuery.Size level) image.now)
        (BrokenAnswer (scene_in context.now).forms (ImageQuery.Size level) image.now) }
{
    match level {
        Some(level) => {
            if !image.class.is_mipmapped() {
                Some(QueryCause::NoLevels)
            } else if is_integer_scalar(context.form_at(level)) {
                None
            } else {
                Some(QueryCause::Level(context.form_at(level)))
            }
        }
        None => None,
    }
}

// A rule as broken, unless a test holds.
const fn unless(holds: bool, cause: QueryCause) -> Option<QueryCause>
    ensures { MatchOption result (IsTrue holds) (λ found. (found ≡ cause) × ¬ IsTrue holds) }
{
    if holds { None } else { Some(cause) }
}

// The broken rule of a query of an image.
fn broken_answer(
    context: &CheckContext<'_>,
    image: &ImageType,
    query: ImageQuery,
) -> Option<QueryCause>
    ensures { MatchOption result
        (IsAnswered (scene_in context.now).forms query image.now)
        (BrokenAnswer (scene_in context.now).forms query image.now) }
{
    match query {
        ImageQuery::Size { level } => broken_size(context, image, level),
        ImageQuery::NumLevels => unless(image.class.is_mipmapped(), QueryCause::NoLevels),
        ImageQuery::NumLayers => unless(image.arrayed, QueryCause::NoLayers),
        ImageQuery::NumSamples => unless(image.class.is_multisampled(), QueryCause::NoSamples),
    }
}

/// The first broken rule of an `ImageQuery`, if any: levels, layers and samples are queried only if the
/// image has several.
pub fn broken_query(
    context: &CheckContext<'_>,
    image: &Form,
    query: ImageQuery,
) -> Option<QueryCause>
    ensures { MatchOption result
        (ImageQueryOK (scene_in context.now).forms image.now query)
        (BrokenQuery (scene_in context.now).forms image.now query) }
{
    match image_type_of(*image) {
        Some(image_type) => broken_answer(context, &image_type, query),
        None => Some(QueryCause::NoImage(*image)),
    }
}
