// Arguments of texture built-ins, and the types of their results.

use ir_kinds::{ImageClass, ImageDimension, Scalar, VectorSize};
use wgsl_expressions::{Lowering, Operand, Value, handle_of};
use wgsl_text::{Extent, WgslError};
use wgsl_types::{Builder, ExpressionHandle, Shape};

// An image operand, with the properties that decide which arguments follow it.
#[derive(Clone, Copy)]
pub(crate) struct Image {
    pub handle: ExpressionHandle,
    pub arrayed: bool,
    pub class: ImageClass,
}

// The image of an argument. It is an error if the argument is no image.
pub(crate) fn image_of<B: Builder>(lowering: &mut Lowering<B>, argument: Operand) -> Image {
    if let Value::Computed(number, Shape::Image(_, arrayed, class)) = argument.value {
        return Image {
            handle: handle_of(number),
            arrayed,
            class,
        };
    }
    let after = " which is not an image";
    lowering.fail(WgslError::of_name("expected an image, but found ", argument.extent, after));
    Image {
        handle: handle_of(0),
        arrayed: false,
        class: ImageClass::External,
    }
}

// The argument at `place`, which is advanced. It is an error if there is none.
pub(crate) fn next<B: Builder>(
    lowering: &mut Lowering<B>,
    arguments: &[Operand],
    place: &mut usize,
    extent: Extent,
) -> Operand {
    let found = arguments.get(*place).copied();
    *place = (*place).saturating_add(1);
    match found {
        Some(argument) => argument,
        None => {
            lowering.wrong("wrong number of arguments", extent);
            Operand::NOTHING
        }
    }
}

// It is an error if an argument is left at `place`.
pub(crate) fn finish<B: Builder>(
    lowering: &mut Lowering<B>,
    arguments: &[Operand],
    place: usize,
    extent: Extent,
) {
    if arguments.len() > place {
        lowering.wrong("wrong number of arguments", extent);
    }
}

// The next argument, concretized.
pub(crate) fn plain<B: Builder>(
    lowering: &mut Lowering<B>,
    arguments: &[Operand],
    place: &mut usize,
    extent: Extent,
) -> ExpressionHandle {
    let argument = next(lowering, arguments, place, extent);
    handle_of(lowering.value(argument).0)
}

// The array index, which is the next argument if the image is arrayed.
pub(crate) fn layer<B: Builder>(
    lowering: &mut Lowering<B>,
    image: &Image,
    arguments: &[Operand],
    place: &mut usize,
    extent: Extent,
) -> Option<ExpressionHandle> {
    if image.arrayed {
        Some(plain(lowering, arguments, place, extent))
    } else {
        None
    }
}

// The words after the operand of a failed conversion to this scalar.
fn after(to: Scalar) -> &'static str {
    if to == Scalar::F32 {
        " to `f32`"
    } else if to == Scalar::I32 {
        " to `i32`"
    } else if to == Scalar::U32 {
        " to `u32`"
    } else {
        " to `u64`"
    }
}

// An argument after automatic conversion of its leaf scalars.
pub(crate) fn converted<B: Builder>(
    lowering: &mut Lowering<B>,
    argument: Operand,
    to: Scalar,
) -> ExpressionHandle {
    let (number, shape) = lowering.value_as(argument, to);
    if shape.scalar() != Some(to) {
        let text = "automatic conversions cannot convert elements of ";
        lowering.fail(WgslError::of_name(text, argument.extent, after(to)));
    }
    handle_of(number)
}

// The next argument after automatic conversion to `f32`.
pub(crate) fn floats<B: Builder>(
    lowering: &mut Lowering<B>,
    arguments: &[Operand],
    place: &mut usize,
    extent: Extent,
) -> ExpressionHandle {
    let argument = next(lowering, arguments, place, extent);
    converted(lowering, argument, Scalar::F32)
}

// The type that a load or a sample returns.
pub(crate) fn texel(class: ImageClass) -> Shape {
    match class {
        ImageClass::Depth { .. } => Shape::Scalar(Scalar::F32),
        ImageClass::Sampled { kind, .. } => {
            Shape::Vector(VectorSize::Quad, Scalar { kind, width: 4 })
        }
        ImageClass::Storage { format, .. } => {
            Shape::Vector(VectorSize::Quad, Scalar::from(format))
        }
        ImageClass::External => Shape::Vector(VectorSize::Quad, Scalar::F32),
    }
}

// The type of the size of an image; `u32` for other types, which the validator refuses.
pub(crate) fn size_of(shape: Shape) -> Shape {
    match shape {
        Shape::Image(ImageDimension::D2 | ImageDimension::Cube, _, _) => {
            Shape::Vector(VectorSize::Bi, Scalar::U32)
        }
        Shape::Image(ImageDimension::D3, _, _) => Shape::Vector(VectorSize::Tri, Scalar::U32),
        _ => Shape::Scalar(Scalar::U32),
    }
}
