// Texture built-ins: queries, loads, stores and atomic operations.

use crate::arguments::{converted, finish, image_of, layer, next, plain, size_of, texel};
use crate::samples::sample;
use ir_blocks::{AtomicFunction, Statement};
use ir_kinds::{ImageClass, Scalar};
use ir_types::{Expression, ImageQuery};
use wgsl_builtins::{QueryWord, TexelWord, TextureWord};
use wgsl_expressions::{Lowering, Operand, Value, handle_of};
use wgsl_text::Extent;
use wgsl_types::{Builder, Shape};

// Lowers an image query.
fn query<B: Builder>(
    lowering: &mut Lowering<B>,
    word: QueryWord,
    arguments: &[Operand],
    extent: Extent,
) -> Operand {
    let mut place: usize = 0;
    let argument = next(lowering, arguments, &mut place, extent);
    let (image, found) = lowering.value(argument);
    let mut shape = Shape::Scalar(Scalar::U32);
    let query = match word {
        QueryWord::Dimensions => {
            shape = size_of(found);
            let level = if arguments.len() > place {
                Some(plain(lowering, arguments, &mut place, extent))
            } else {
                None
            };
            ImageQuery::Size { level }
        }
        QueryWord::NumLayers => ImageQuery::NumLayers,
        QueryWord::NumLevels => ImageQuery::NumLevels,
        QueryWord::NumSamples => ImageQuery::NumSamples,
    };
    finish(lowering, arguments, place, extent);
    let expression = Expression::ImageQuery {
        image: handle_of(image),
        query,
    };
    Operand::computed(lowering.compute(expression, extent), shape, extent)
}

// Lowers `textureLoad`.
fn load<B: Builder>(lowering: &mut Lowering<B>, arguments: &[Operand], extent: Extent) -> Operand {
    let mut place: usize = 0;
    let first = next(lowering, arguments, &mut place, extent);
    let image = image_of(lowering, first);
    let coordinate = plain(lowering, arguments, &mut place, extent);
    let array_index = layer(lowering, &image, arguments, &mut place, extent);
    let sample = if image.class.is_multisampled() {
        Some(plain(lowering, arguments, &mut place, extent))
    } else {
        None
    };
    let level = if image.class.is_mipmapped() {
        Some(plain(lowering, arguments, &mut place, extent))
    } else {
        None
    };
    finish(lowering, arguments, place, extent);
    let expression = Expression::ImageLoad {
        image: image.handle,
        coordinate,
        array_index,
        sample,
        level,
    };
    let shape = texel(image.class);
    Operand::computed(lowering.compute(expression, extent), shape, extent)
}

// The placeholder operand of a call without a result.
fn nothing(extent: Extent) -> Operand {
    Operand {
        value: Value::Nothing,
        extent,
    }
}

// Lowers `textureStore`.
fn store<B: Builder>(lowering: &mut Lowering<B>, arguments: &[Operand], extent: Extent) -> Operand {
    let mut place: usize = 0;
    let first = next(lowering, arguments, &mut place, extent);
    let image = image_of(lowering, first);
    let coordinate = plain(lowering, arguments, &mut place, extent);
    let array_index = layer(lowering, &image, arguments, &mut place, extent);
    let argument = next(lowering, arguments, &mut place, extent);
    finish(lowering, arguments, place, extent);
    let ImageClass::Storage { format, .. } = image.class else {
        let text = "textureStore can only be applied to storage textures";
        lowering.wrong(text, first.extent);
        return nothing(extent);
    };
    let value = converted(lowering, argument, Scalar::from(format));
    let statement = Statement::ImageStore {
        image: image.handle,
        coordinate,
        array_index,
        value,
    };
    lowering.builder.statement(statement, extent);
    nothing(extent)
}

// The atomic function of the IR.
fn atomic_function(word: TexelWord) -> AtomicFunction {
    match word {
        TexelWord::Min => AtomicFunction::Min,
        TexelWord::Max => AtomicFunction::Max,
        TexelWord::Add => AtomicFunction::Add,
        TexelWord::And => AtomicFunction::And,
        TexelWord::Or => AtomicFunction::InclusiveOr,
        TexelWord::Xor => AtomicFunction::ExclusiveOr,
    }
}

// Lowers an atomic operation on a texel.
fn atomic<B: Builder>(
    lowering: &mut Lowering<B>,
    word: TexelWord,
    arguments: &[Operand],
    extent: Extent,
) -> Operand {
    let mut place: usize = 0;
    let first = next(lowering, arguments, &mut place, extent);
    let image = image_of(lowering, first);
    let coordinate = plain(lowering, arguments, &mut place, extent);
    let array_index = layer(lowering, &image, arguments, &mut place, extent);
    let value = plain(lowering, arguments, &mut place, extent);
    finish(lowering, arguments, place, extent);
    let statement = Statement::ImageAtomic {
        image: image.handle,
        coordinate,
        array_index,
        fun: atomic_function(word),
        value,
    };
    lowering.builder.statement(statement, extent);
    nothing(extent)
}

/// Lowers a call of a texture built-in.
pub fn lower_texture<B: Builder>(
    lowering: &mut Lowering<B>,
    word: TextureWord,
    arguments: &[Operand],
    extent: Extent,
) -> Operand {
    match word {
        TextureWord::Query(word) => query(lowering, word, arguments, extent),
        TextureWord::Sample(word) => sample(lowering, word, arguments, extent),
        TextureWord::Load => load(lowering, arguments, extent),
        TextureWord::Store => store(lowering, arguments, extent),
        TextureWord::Atomic(word) => atomic(lowering, word, arguments, extent),
    }
}
