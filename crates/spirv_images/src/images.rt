// Images (section 3.52.10).

use crate::masks::{ImageOperands, image_operands};
use crate::places::{Coordinates, read_coordinates};
use ir_kinds::{
    BinaryOperator, ImageClass, ImageDimension, Literal, Scalar, ScalarKind, SwizzleComponent,
    VectorSize,
};
use ir_types::{Expression, ImageQuery, SampleLevel};
use spirv_expressions::{
    Builder, ImageValue, Value, as_kind, binary, compose, convert, keep, need, operand,
    operand_scalar, part_of, parts_from, result_scalar, splat,
};
use spirv_flow::FRAGMENT_PLACE;
use spirv_numbers::ops;
use spirv_types::Shape;
use spirv_words::{Feature, Instruction};

/// Translates an operation on an image; `None` for other operations.
pub fn image_operation<B: Builder>(builder: &mut B, operation: &Instruction) -> Option<Value> {
    let value = match operation.opcode {
        ops::IMAGE_SAMPLE_IMPLICIT_LOD..=ops::IMAGE_SAMPLE_PROJ_DREF_EXPLICIT_LOD
        | ops::IMAGE_GATHER
        | ops::IMAGE_DREF_GATHER => sample(builder, operation),
        ops::IMAGE_FETCH | ops::IMAGE_READ => fetch(builder, operation),
        ops::IMAGE_QUERY_SIZE_LOD => size(builder, operation, true),
        ops::IMAGE_QUERY_SIZE => size(builder, operation, false),
        ops::IMAGE_QUERY_LEVELS => query(builder, operation, ImageQuery::NumLevels),
        ops::IMAGE_QUERY_SAMPLES => query(builder, operation, ImageQuery::NumSamples),
        _ => return None,
    };
    Some(value)
}

// Whether it is sampled with a comparison.
fn compares(opcode: u16) -> bool {
    matches!(
        opcode,
        ops::IMAGE_SAMPLE_DREF_IMPLICIT_LOD
            | ops::IMAGE_SAMPLE_DREF_EXPLICIT_LOD
            | ops::IMAGE_SAMPLE_PROJ_DREF_IMPLICIT_LOD
            | ops::IMAGE_SAMPLE_PROJ_DREF_EXPLICIT_LOD
            | ops::IMAGE_DREF_GATHER
    )
}

// Whether the coordinate is projective.
fn projects(opcode: u16) -> bool {
    matches!(
        opcode,
        ops::IMAGE_SAMPLE_PROJ_IMPLICIT_LOD..=ops::IMAGE_SAMPLE_PROJ_DREF_EXPLICIT_LOD
    )
}

// The component of a gather.
fn gathered<B: Builder>(builder: &mut B, operation: &Instruction) -> Option<SwizzleComponent> {
    match operation.opcode {
        ops::IMAGE_DREF_GATHER => Some(SwizzleComponent::X),
        ops::IMAGE_GATHER => {
            let id = need(builder, operation, 2);
            let number = builder.constant(id).unwrap_or(-1);
            if number < 0 || 3 < number {
                builder.fail(operation.unsupported_by(Feature::GatherComponent));
            }
            let index = u32::try_from(number).unwrap_or(0);
            Some(SwizzleComponent::from_index(index))
        }
        _ => None,
    }
}

// A sample.
fn sample<B: Builder>(builder: &mut B, operation: &Instruction) -> Value {
    let opcode = operation.opcode;
    let pair = need(builder, operation, 0);
    let image = builder.image(pair, operation);
    let place = need(builder, operation, 1);
    let at = read_coordinates(builder, operation, &image, place, projects(opcode));
    let gather = gathered(builder, operation);
    let mut depth_ref = None;
    let mut mask = if opcode == ops::IMAGE_GATHER { 3 } else { 2 };
    if compares(opcode) {
        depth_ref = Some(reference(builder, operation, &at));
        mask = 3;
    }
    let options = image_operands(builder, operation, mask);
    let level = level_of(builder, operation, &options, &image, gather.is_some());
    let offset = value_of(builder, operation, options.offset);
    let sampler = builder.sampler(pair, operation);
    let sampled = Expression::ImageSample {
        image: image.value,
        sampler,
        gather,
        coordinate: at.coordinate,
        array_index: at.layer,
        offset,
        level,
        depth_ref,
        clamp_to_edge: false,
    };
    let value = builder.emit(sampled, operation);
    if is_depth(&image) && depth_ref.is_none() && gather.is_none() {
        return filled(builder, operation, value);
    }
    value
}

// A depth in the result's type, which may be a vector.
fn filled<B: Builder>(builder: &mut B, operation: &Instruction, value: Value) -> Value {
    let size = match builder.shape(operation.ty) {
        Shape::Vector { .. } => Some(VectorSize::Quad),
        _ => None,
    };
    splat(builder, operation, size, value)
}

// Whether an image is used as a depth image.
fn is_depth(image: &ImageValue) -> bool {
    matches!(image.class, ImageClass::Depth { .. })
}

// The value of an optional operand.
fn value_of<B: Builder>(
    builder: &mut B,
    operation: &Instruction,
    id: Option<u32>,
) -> Option<Value> {
    let id = id?;
    Some(builder.value(id, operation))
}

// The reference depth, divided as the coordinate is.
fn reference<B: Builder>(builder: &mut B, operation: &Instruction, at: &Coordinates) -> Value {
    let left = operand(builder, operation, 2);
    match at.divisor {
        Some(right) => binary(builder, operation, BinaryOperator::Divide, left, right),
        None => left,
    }
}

// The sampled level of detail.
fn level_of<B: Builder>(
    builder: &mut B,
    operation: &Instruction,
    options: &ImageOperands,
    image: &ImageValue,
    gathers: bool,
) -> SampleLevel {
    if let Some(bias) = options.bias {
        return SampleLevel::Bias(builder.value(bias, operation));
    }
    if let Some(level) = options.level {
        if compares(operation.opcode) {
            if !builder.is_constant(level) || builder.constant(level) != Some(0) {
                builder.fail(operation.unsupported());
            }
            return SampleLevel::Zero;
        }
        let kind = builder.shape(builder.type_of(level)).kind();
        if !is_depth(image) && kind != Some(ScalarKind::Float) {
            builder.fail(operation.unsupported_by(Feature::IntegerLod));
        }
        return SampleLevel::Exact(builder.value(level, operation));
    }
    if let Some((along_x, along_y)) = options.gradient {
        let x = builder.value(along_x, operation);
        let y = builder.value(along_y, operation);
        return SampleLevel::Gradient { x, y };
    }
    if gathers {
        SampleLevel::Zero
    } else {
        SampleLevel::Auto
    }
}

// A texel.
fn fetch<B: Builder>(builder: &mut B, operation: &Instruction) -> Value {
    let id = need(builder, operation, 0);
    let image = builder.image(id, operation);
    let place = need(builder, operation, 1);
    let at = read_coordinates(builder, operation, &image, place, false);
    let options = image_operands(builder, operation, 2);
    let sample = value_of(builder, operation, options.sample);
    let mut coordinate = at.coordinate;
    if let Some(offset) = options.offset {
        coordinate = moved_by(builder, operation, coordinate, offset);
    }
    if image.shape.attachment {
        coordinate = at_fragment(builder, operation, coordinate);
    }
    let level = fetched_level(builder, operation, &options, &image);
    let load = Expression::ImageLoad {
        image: image.value,
        coordinate,
        array_index: at.layer,
        sample,
        level,
    };
    let value = builder.emit(load, operation);
    let size = if is_depth(&image) {
        Some(VectorSize::Quad)
    } else {
        None
    };
    let value = splat(builder, operation, size, value);
    narrowed(builder, operation, value)
}

// The coordinate plus this offset, converted to its signedness.
fn moved_by<B: Builder>(
    builder: &mut B,
    operation: &Instruction,
    coordinate: Value,
    offset: u32,
) -> Value {
    let kind = operand_scalar(builder, operation, 1).kind;
    let value = builder.value(offset, operation);
    let from = builder.shape(builder.type_of(offset)).kind();
    let right = as_kind(builder, operation, value, from.unwrap_or(kind), kind);
    binary(builder, operation, BinaryOperator::Add, coordinate, right)
}

// The coordinate relative to the fragment's position.
fn at_fragment<B: Builder>(builder: &mut B, operation: &Instruction, coordinate: Value) -> Value {
    let pointer = builder.value(FRAGMENT_PLACE, operation);
    let place = builder.emit(Expression::Load { pointer }, operation);
    let kind = operand_scalar(builder, operation, 1).kind;
    let place = as_kind(builder, operation, place, ScalarKind::Uint, kind);
    binary(builder, operation, BinaryOperator::Add, place, coordinate)
}

// The fetched level of detail: 0 where none is given.
fn fetched_level<B: Builder>(
    builder: &mut B,
    operation: &Instruction,
    options: &ImageOperands,
    image: &ImageValue,
) -> Option<Value> {
    if operation.opcode == ops::IMAGE_READ && !image.shape.attachment {
        return None;
    }
    match options.level {
        Some(id) => Some(builder.value(id, operation)),
        None if image.shape.multi => None,
        None => Some(builder.literal(Literal::I32(0), operation)),
    }
}

// The first of four components, as many as the result has.
fn narrowed<B: Builder>(builder: &mut B, operation: &Instruction, vector: Value) -> Value {
    match builder.shape(operation.ty) {
        Shape::Scalar(_) => part_of(builder, operation, vector, 0),
        Shape::Vector { size, .. } if size != VectorSize::Quad => {
            let pattern = SwizzleComponent::XYZW;
            let swizzle = Expression::Swizzle {
                size,
                vector,
                pattern,
            };
            builder.emit(swizzle, operation)
        }
        _ => vector,
    }
}

// An image query.
fn ask<B: Builder>(
    builder: &mut B,
    operation: &Instruction,
    image: &ImageValue,
    query: ImageQuery,
) -> Value {
    let query = Expression::ImageQuery {
        image: image.value,
        query,
    };
    builder.emit(query, operation)
}

// The result of a query, in the result's signedness.
fn answered<B: Builder>(builder: &mut B, operation: &Instruction, value: Value) -> Value {
    if result_scalar(builder, operation).kind == ScalarKind::Sint {
        convert(builder, operation, value, ScalarKind::Sint, Some(4))
    } else {
        value
    }
}

fn query<B: Builder>(builder: &mut B, operation: &Instruction, query: ImageQuery) -> Value {
    let id = need(builder, operation, 0);
    let image = builder.image(id, operation);
    let value = ask(builder, operation, &image, query);
    answered(builder, operation, value)
}

// The size of an image, followed by its number of layers.
fn size<B: Builder>(builder: &mut B, operation: &Instruction, has_level: bool) -> Value {
    let id = need(builder, operation, 0);
    let image = builder.image(id, operation);
    let level = if has_level {
        Some(operand(builder, operation, 1))
    } else {
        None
    };
    let size = ask(builder, operation, &image, ImageQuery::Size { level });
    if !image.shape.arrayed {
        return answered(builder, operation, size);
    }
    let (whole, count) = if image.shape.dim == ImageDimension::D1 {
        (VectorSize::Bi, 0)
    } else {
        (VectorSize::Tri, 2)
    };
    let mut components = parts_from(builder, operation, size, 0, count);
    if count == 0 {
        keep(builder, &mut components, size);
    }
    let layers = ask(builder, operation, &image, ImageQuery::NumLayers);
    keep(builder, &mut components, layers);
    let ty = builder.vector(Some(whole), Scalar::U32);
    let value = compose(builder, operation, ty, components);
    answered(builder, operation, value)
}
