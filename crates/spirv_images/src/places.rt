// The coordinate of a sample or a texel.

use ir_kinds::{BinaryOperator, ImageDimension, MathFunction, Scalar, ScalarKind};
use ir_types::ArraySize;
use spirv_expressions::{
    Builder, ImageValue, Value, binary, call, component_count, compose, convert, keep, operand,
    operand_scalar, operand_shape, part_of, parts_from, refuse, scalar_of, splat,
};
use spirv_types::{Shape, vector_size};
use spirv_words::{Feature, Instruction, Malformed};

/// The coordinate of a sample or a texel.
#[derive(Clone, Copy)]
pub struct Coordinates {
    /// The coordinate within a layer.
    pub coordinate: Value,
    /// The layer.
    pub layer: Option<Value>,
    /// The divisor of a projective coordinate.
    pub divisor: Option<Value>,
}

/// The number of components of a coordinate.
pub fn coordinate_count(dim: ImageDimension) -> u32 {
    match dim {
        ImageDimension::D1 => 1,
        ImageDimension::D2 => 2,
        ImageDimension::D3 | ImageDimension::Cube => 3,
    }
}

/// Splits SPIR-V's one coordinate vector, the value of this id, into coordinate and layer.
pub fn read_coordinates<B: Builder>(
    builder: &mut B,
    operation: &Instruction,
    image: &ImageValue,
    id: u32,
    project: bool,
) -> Coordinates {
    let shape = builder.shape(builder.type_of(id));
    let scalar = scalar_of(builder, &shape, operation);
    let is_float = scalar.kind == ScalarKind::Float;
    if image.shape.dim == ImageDimension::Cube && image.shape.arrayed && !is_float {
        builder.fail(operation.unsupported_by(Feature::CubeArrayTexel));
    }
    let value = builder.value(id, operation);
    let given = component_count(shape);
    let wanted = coordinate_count(image.shape.dim);
    let layer = if image.shape.arrayed {
        Some(layer_of(builder, operation, value, wanted, is_float))
    } else {
        None
    };
    let mut coordinate = value;
    if given > wanted {
        coordinate = first_components(builder, operation, value, wanted, scalar);
    }
    let mut divisor = None;
    if project {
        let last = part_of(builder, operation, value, given.saturating_sub(1));
        let right = splat(builder, operation, vector_size(wanted), last);
        coordinate = binary(
            builder,
            operation,
            BinaryOperator::Divide,
            coordinate,
            right,
        );
        divisor = Some(last);
    }
    Coordinates {
        coordinate,
        layer,
        divisor,
    }
}

// The layer: the component at this index, rounded to an integer.
fn layer_of<B: Builder>(
    builder: &mut B,
    operation: &Instruction,
    value: Value,
    index: u32,
    is_float: bool,
) -> Value {
    let layer = part_of(builder, operation, value, index);
    if is_float {
        let none = [None, None, None];
        let nearest = call(builder, operation, MathFunction::Round, layer, none);
        convert(builder, operation, nearest, ScalarKind::Sint, Some(4))
    } else {
        layer
    }
}

// The first components of a vector.
fn first_components<B: Builder>(
    builder: &mut B,
    operation: &Instruction,
    value: Value,
    count: u32,
    scalar: Scalar,
) -> Value {
    let Some(size) = vector_size(count) else {
        return part_of(builder, operation, value, 0);
    };
    let components = parts_from(builder, operation, value, 0, count);
    let ty = builder.vector(Some(size), scalar);
    compose(builder, operation, ty, components)
}

/// A texel of four components, the missing ones 0.
pub fn widened<B: Builder>(builder: &mut B, operation: &Instruction, place: usize) -> Value {
    let value = operand(builder, operation, place);
    let scalar = operand_scalar(builder, operation, place);
    let count = component_count(operand_shape(builder, operation, place));
    if count == 4 {
        return value;
    }
    let Some(zero) = ir_kinds::Literal::zero(scalar) else {
        return refuse(builder, operation.malformed(Malformed::WrongType));
    };
    let zero = builder.literal(zero, operation);
    let parts = if count == 1 { 0 } else { count };
    let mut components = parts_from(builder, operation, value, 0, parts);
    if count == 1 {
        keep(builder, &mut components, value);
    }
    for _ in count..4 {
        keep(builder, &mut components, zero);
    }
    let ty = builder.vector(vector_size(4), scalar);
    compose(builder, operation, ty, components)
}

/// The number of resources of an array, nested arrays included.
pub fn count_resources<B: Builder>(builder: &B, ty: u32) -> Option<u32> {
    let mut at = ty;
    let mut count = None;
    for _ in 0..MAX_DEPTH {
        match builder.shape(at) {
            Shape::Array {
                element,
                size: ArraySize::Constant(size),
                binding: true,
            } => {
                count = Some(count.unwrap_or(1u32).checked_mul(size)?);
                at = element;
            }
            _ => return count,
        }
    }
    None
}

// The deepest nesting of arrays (universal limit of the standard).
const MAX_DEPTH: usize = 255;
