// Image operands, as given by a mask (section 3.14).

use spirv_expressions::{Builder, need};
use spirv_words::{Feature, Instruction};

/// Image operands, by the ids of their values.
#[derive(Clone, Copy)]
pub struct ImageOperands {
    /// The bias of the level of detail.
    pub bias: Option<u32>,
    /// The level of detail.
    pub level: Option<u32>,
    /// The derivatives along x and y.
    pub gradient: Option<(u32, u32)>,
    /// A constant offset in texels.
    pub offset: Option<u32>,
    /// The sample.
    pub sample: Option<u32>,
}

const BIAS: u32 = 1;

const LOD: u32 = 2;

const GRAD: u32 = 4;

const CONST_OFFSET: u32 = 8;

const OFFSET: u32 = 16;

const CONST_OFFSETS: u32 = 32;

const SAMPLE: u32 = 64;

const MIN_LOD: u32 = 128;

// The operand at this index, if the mask has this bit; then advances the index.
fn taken<B: Builder>(
    builder: &mut B,
    operation: &Instruction,
    has: bool,
    place: &mut usize,
) -> Option<u32> {
    if !has {
        return None;
    }
    let id = need(builder, operation, *place);
    *place = place.saturating_add(1);
    Some(id)
}

/// The operands after the mask at this index.
pub fn image_operands<B: Builder>(
    builder: &mut B,
    operation: &Instruction,
    place: usize,
) -> ImageOperands {
    let mask = builder.given(operation, place).unwrap_or(0);
    if mask & CONST_OFFSETS != 0 {
        builder.fail(operation.unsupported_by(Feature::ConstOffsets));
    }
    if mask & MIN_LOD != 0 {
        builder.fail(operation.unsupported_by(Feature::MinLod));
    }
    let mut place = place.saturating_add(1);
    let bias = taken(builder, operation, mask & BIAS != 0, &mut place);
    let level = taken(builder, operation, mask & LOD != 0, &mut place);
    let along_x = taken(builder, operation, mask & GRAD != 0, &mut place);
    let along_y = taken(builder, operation, mask & GRAD != 0, &mut place);
    let constant = taken(builder, operation, mask & CONST_OFFSET != 0, &mut place);
    let offset = taken(builder, operation, mask & OFFSET != 0, &mut place);
    if let Some(id) = offset {
        if !builder.is_constant(id) {
            builder.fail(operation.unsupported_by(Feature::Offset));
        }
    }
    let sample = taken(builder, operation, mask & SAMPLE != 0, &mut place);
    let gradient = match (along_x, along_y) {
        (Some(x), Some(y)) => Some((x, y)),
        _ => None,
    };
    ImageOperands {
        bias,
        level,
        gradient,
        offset: offset.or(constant),
        sample,
    }
}
