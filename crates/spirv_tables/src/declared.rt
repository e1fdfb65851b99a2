// What declarations of types say of numbers and of images (section 3.52.6).

use crate::tables::format;
use ir_kinds::{Scalar, ScalarKind, StorageFormat};
use spirv_numbers::ops;
use spirv_words::{Instruction, Listing, SpirvError, Unsupported};

/// The scalar of a numeric type.
pub fn scalar_type(listing: &Listing, instruction: &Instruction) -> Result<Scalar, SpirvError> {
    let bits = match listing.need(instruction, 0) {
        Ok(bits) => bits,
        Err(error) => return Err(error),
    };
    let (kind, unsupported) = if instruction.opcode == ops::TYPE_FLOAT {
        (ScalarKind::Float, Unsupported::FloatWidth(bits))
    } else {
        let kind = match listing.need(instruction, 1) {
            Ok(1) => ScalarKind::Sint,
            Ok(_) => ScalarKind::Uint,
            Err(error) => return Err(error),
        };
        (kind, Unsupported::IntWidth(bits))
    };
    let width = match bits {
        16 => 2,
        32 => 4,
        64 => 8,
        _ => return Err(instruction.unsupported_as(unsupported)),
    };
    Ok(Scalar { kind, width })
}

/// The format of a storage image.
pub fn image_format(
    listing: &Listing,
    instruction: &Instruction,
) -> Result<StorageFormat, SpirvError> {
    let number = match listing.need(instruction, 6) {
        Ok(number) => number,
        Err(error) => return Err(error),
    };
    match format(number) {
        Some(format) => Ok(format),
        None => Err(instruction.unsupported_as(Unsupported::Format(number))),
    }
}
