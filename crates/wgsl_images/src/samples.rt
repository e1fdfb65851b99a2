// Samples and gathers.

use crate::arguments::{Image, converted, finish, floats, image_of, layer, next, plain, texel};
use ir_kinds::{ImageClass, Literal, Scalar, SwizzleComponent, VectorSize};
use ir_types::{Expression, SampleLevel};
use wgsl_builtins::SampleWord;
use wgsl_expressions::{Lowering, Operand, Value};
use wgsl_text::{Extent, WgslError};
use wgsl_types::{Builder, ExpressionHandle, Shape};

// The component argument of a gather, which must be a constant integer.
fn component_of<B: Builder>(lowering: &mut Lowering<B>, argument: Operand) -> SwizzleComponent {
    let number = match argument.value {
        Value::Literal(Literal::AbstractInt(number)) => Some(number),
        Value::Literal(Literal::I32(number)) => Some(i64::from(number)),
        Value::Literal(Literal::U32(number)) => Some(i64::from(number)),
        _ => None,
    };
    let Some(number) = number else {
        let text =
            "must be a const-expression that resolves to a concrete integer scalar (`u32` or `i32`)";
        lowering.wrong(text, argument.extent);
        return SwizzleComponent::X;
    };
    if number < 0 {
        lowering.wrong("must be non-negative (>= 0)", argument.extent);
    }
    match u32::try_from(number) {
        Ok(index) if index < 4 => SwizzleComponent::from_index(index),
        _ => {
            let after = " doesn't exist, must be 0, 1, 2, or 3";
            lowering.fail(WgslError::of_name("textureGather component ", argument.extent, after));
            SwizzleComponent::X
        }
    }
}

// The image, and the component that is gathered. A gather of a depth image has no component argument.
fn sampled<B: Builder>(
    lowering: &mut Lowering<B>,
    word: SampleWord,
    arguments: &[Operand],
    place: &mut usize,
    extent: Extent,
) -> (Image, Option<SwizzleComponent>) {
    let first = next(lowering, arguments, place, extent);
    if word == SampleWord::GatherCompare {
        return (image_of(lowering, first), Some(SwizzleComponent::X));
    }
    if word != SampleWord::Gather {
        return (image_of(lowering, first), None);
    }
    if let Value::Computed(_, Shape::Image(_, _, ImageClass::Depth { .. })) = first.value {
        return (image_of(lowering, first), Some(SwizzleComponent::X));
    }
    let second = next(lowering, arguments, place, extent);
    let image = image_of(lowering, second);
    (image, Some(component_of(lowering, first)))
}

// The level of detail, and the depth reference value of a comparison.
fn detail<B: Builder>(
    lowering: &mut Lowering<B>,
    word: SampleWord,
    class: ImageClass,
    arguments: &[Operand],
    place: &mut usize,
    extent: Extent,
) -> (SampleLevel, Option<ExpressionHandle>) {
    match word {
        SampleWord::Gather | SampleWord::BaseClampToEdge => (SampleLevel::Zero, None),
        SampleWord::GatherCompare | SampleWord::CompareLevel => {
            let reference = floats(lowering, arguments, place, extent);
            (SampleLevel::Zero, Some(reference))
        }
        SampleWord::Sample => (SampleLevel::Auto, None),
        SampleWord::Compare => {
            let reference = floats(lowering, arguments, place, extent);
            (SampleLevel::Auto, Some(reference))
        }
        SampleWord::Bias => {
            let bias = floats(lowering, arguments, place, extent);
            (SampleLevel::Bias(bias), None)
        }
        SampleWord::Grad => {
            let x = floats(lowering, arguments, place, extent);
            let y = floats(lowering, arguments, place, extent);
            (SampleLevel::Gradient { x, y }, None)
        }
        SampleWord::Level => {
            let level = match class {
                ImageClass::Sampled { .. } => floats(lowering, arguments, place, extent),
                _ => plain(lowering, arguments, place, extent),
            };
            (SampleLevel::Exact(level), None)
        }
    }
}

// Lowers a sample or a gather.
pub(crate) fn sample<B: Builder>(
    lowering: &mut Lowering<B>,
    word: SampleWord,
    arguments: &[Operand],
    extent: Extent,
) -> Operand {
    let mut place: usize = 0;
    let (image, gather) = sampled(lowering, word, arguments, &mut place, extent);
    let sampler = plain(lowering, arguments, &mut place, extent);
    let coordinate = floats(lowering, arguments, &mut place, extent);
    let array_index = layer(lowering, &image, arguments, &mut place, extent);
    let (level, depth_ref) = detail(lowering, word, image.class, arguments, &mut place, extent);
    let offset = match arguments.get(place) {
        Some(offset) => Some(converted(lowering, *offset, Scalar::I32)),
        None => None,
    };
    finish(lowering, arguments, place.saturating_add(1), extent);
    let expression = Expression::ImageSample {
        image: image.handle,
        sampler,
        gather,
        coordinate,
        array_index,
        offset,
        level,
        depth_ref,
        clamp_to_edge: word == SampleWord::BaseClampToEdge,
    };
    let mut shape = texel(image.class);
    if let (Some(_), Shape::Scalar(scalar)) = (gather, shape) {
        shape = Shape::Vector(VectorSize::Quad, scalar);
    }
    Operand::computed(lowering.compute(expression, extent), shape, extent)
}
