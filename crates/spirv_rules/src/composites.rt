// Parts of values, matrices and images (sections 3.52.10, 3.52.12 and 3.52.13).

use crate::kinds::{Class, Kind, Of, Wrong, is_of, kind_at, kind_of, type_at};
use spirv_numbers::ops;
use spirv_words::{Instruction, Listing, Malformed};

// The type of the part of a value of a type at this index.
fn part_of(listing: &Listing, id: u32, index: u32) -> Option<u32> {
    let ty = listing.defined(id);
    match ty.opcode {
        ops::TYPE_STRUCT => listing.operand(&ty, index as usize),
        ops::TYPE_ARRAY | ops::TYPE_VECTOR | ops::TYPE_MATRIX => listing.operand(&ty, 0),
        _ => None,
    }
}

// The type that the indexes of an instruction from this index on lead to, from this one.
fn end_of(listing: &Listing, instruction: &Instruction, from: u32, place: usize) -> Option<u32> {
    let mut at = from;
    for index in listing.operands_from(instruction, place) {
        at = part_of(listing, at, *index)?;
    }
    Some(at)
}

// A part that is taken out is of the type that is given.
fn wrong_extract(listing: &Listing, instruction: &Instruction) -> Wrong {
    let whole = type_at(listing, instruction, 0);
    match end_of(listing, instruction, whole, 1) {
        Some(end) if end != instruction.ty => Some(Malformed::ResultType),
        _ => None,
    }
}

// A part that is put in is of the type of the part there, and the whole of the type that is given.
fn wrong_insert(listing: &Listing, instruction: &Instruction) -> Wrong {
    let (part, whole) = (
        type_at(listing, instruction, 0),
        type_at(listing, instruction, 1),
    );
    if part == 0 || whole == 0 {
        return None;
    }
    if whole != instruction.ty {
        return Some(Malformed::ResultType);
    }
    match end_of(listing, instruction, whole, 2) {
        Some(end) if end != part => Some(Malformed::OperandType),
        _ => None,
    }
}

// One component of a vector, by an index that is computed.
fn wrong_component(listing: &Listing, instruction: &Instruction) -> Wrong {
    match (
        kind_of(listing, instruction.ty),
        kind_at(listing, instruction, 0),
    ) {
        (Of::Kind(given), Of::Kind(vector)) if given != (Kind { count: 1, ..vector }) => {
            Some(Malformed::ResultType)
        }
        _ => None,
    }
}

// The type of a component of a vector; of what is no vector its own.
fn component_of(listing: &Listing, id: u32) -> u32 {
    let ty = listing.defined(id);
    if ty.opcode == ops::TYPE_VECTOR {
        listing.operand(&ty, 0).unwrap_or(0)
    } else {
        id
    }
}

// A vector of as many components as there are numbers, each of one of two vectors.
fn wrong_shuffle(listing: &Listing, instruction: &Instruction) -> Wrong {
    let Of::Kind(given) = kind_of(listing, instruction.ty) else {
        return Some(Malformed::ResultType);
    };
    if given.count as usize != listing.operands_from(instruction, 2).len() {
        return Some(Malformed::ResultType);
    }
    let component = component_of(listing, instruction.ty);
    for place in 0..2 {
        let ty = type_at(listing, instruction, place);
        if ty != 0 && component_of(listing, ty) != component {
            return Some(Malformed::OperandType);
        }
    }
    None
}

// How many columns a matrix has, and what each is.
#[derive(Clone, Copy)]
struct Columns {
    count: u32,
    column: Kind,
}

// The columns of a matrix.
fn columns_of(listing: &Listing, id: u32) -> Option<Columns> {
    let ty = listing.defined(id);
    if ty.opcode != ops::TYPE_MATRIX {
        return None;
    }
    match kind_of(listing, listing.operand(&ty, 0).unwrap_or(0)) {
        Of::Kind(column) => Some(Columns {
            count: listing.operand(&ty, 1).unwrap_or(0),
            column,
        }),
        Of::Other | Of::Unknown => None,
    }
}

// The columns of the operand at this index.
fn columns_at(listing: &Listing, instruction: &Instruction, place: usize) -> Option<Columns> {
    columns_of(listing, type_at(listing, instruction, place))
}

// Whether the product of matrices is this one.
fn is_product(left: Option<Columns>, right: Option<Columns>, given: Option<Columns>) -> bool {
    match (left, right, given) {
        (Some(left), Some(right), Some(given)) => {
            left.count == right.column.count
                && given.count == right.count
                && given.column == left.column
        }
        _ => false,
    }
}

// Whether a matrix times a vector, or a vector times a matrix, is this one, of these sizes.
fn is_line(matrix: Option<Columns>, vector: Of, given: Of, by_rows: bool) -> bool {
    let (Some(matrix), Of::Kind(vector), Of::Kind(given)) = (matrix, vector, given) else {
        return false;
    };
    let across = Kind {
        count: matrix.count,
        ..matrix.column
    };
    if by_rows {
        vector == matrix.column && given == across
    } else {
        vector == across && given == matrix.column
    }
}

// Whether the operands of a product and what it gives are of types that go together.
fn is_right_product(listing: &Listing, instruction: &Instruction) -> bool {
    let given = kind_of(listing, instruction.ty);
    let (left, right) = (
        kind_at(listing, instruction, 0),
        kind_at(listing, instruction, 1),
    );
    let of_left = columns_at(listing, instruction, 0);
    let of_right = columns_at(listing, instruction, 1);
    match instruction.opcode {
        ops::MATRIX_TIMES_VECTOR => is_line(of_left, right, given, false),
        ops::VECTOR_TIMES_MATRIX => is_line(of_right, left, given, true),
        ops::MATRIX_TIMES_MATRIX => {
            is_product(of_left, of_right, columns_of(listing, instruction.ty))
        }
        _ => {
            type_at(listing, instruction, 0) == instruction.ty
                && is_of(right, Class::Float, None, Some(1))
        }
    }
}

// Whether an operand or the result is of a type of an extension, so that nothing is known of it.
fn is_unknown(listing: &Listing, instruction: &Instruction) -> bool {
    kind_of(listing, instruction.ty) == Of::Unknown
        || kind_at(listing, instruction, 0) == Of::Unknown
        || kind_at(listing, instruction, 1) == Of::Unknown
}

// What is wrong with a product.
fn wrong_product(listing: &Listing, instruction: &Instruction) -> Wrong {
    if is_unknown(listing, instruction) || is_right_product(listing, instruction) {
        None
    } else {
        Some(Malformed::OperandType)
    }
}

// What each texel of an image is made of, which the operand at the first place is, or is with a sampler.
fn texels_of(listing: &Listing, instruction: &Instruction) -> Of {
    let mut ty = listing.defined(type_at(listing, instruction, 0));
    if ty.opcode == ops::TYPE_SAMPLED_IMAGE {
        ty = listing.defined(listing.operand(&ty, 0).unwrap_or(0));
    }
    if ty.opcode == ops::TYPE_IMAGE {
        kind_of(listing, listing.operand(&ty, 0).unwrap_or(0))
    } else {
        Of::Unknown
    }
}

// What is wrong with what is taken from an image: so many of what its texels are made of.
fn wrong_texels(listing: &Listing, instruction: &Instruction, count: Option<u32>) -> Wrong {
    match texels_of(listing, instruction) {
        Of::Kind(texel) => {
            let given = kind_of(listing, instruction.ty);
            if is_of(given, texel.class, Some(texel.width), count) {
                None
            } else {
                Some(Malformed::ResultType)
            }
        }
        Of::Other | Of::Unknown => None,
    }
}

/// What is wrong with an instruction that takes values apart, multiplies matrices or looks into images.
pub(crate) fn wrong_composites(listing: &Listing, instruction: &Instruction) -> Wrong {
    match instruction.opcode {
        ops::COMPOSITE_EXTRACT => wrong_extract(listing, instruction),
        ops::COMPOSITE_INSERT => wrong_insert(listing, instruction),
        ops::VECTOR_EXTRACT_DYNAMIC => wrong_component(listing, instruction),
        ops::VECTOR_SHUFFLE => wrong_shuffle(listing, instruction),
        ops::VECTOR_TIMES_SCALAR..=ops::MATRIX_TIMES_MATRIX => wrong_product(listing, instruction),
        ops::IMAGE_SAMPLE_DREF_IMPLICIT_LOD
        | ops::IMAGE_SAMPLE_DREF_EXPLICIT_LOD
        | ops::IMAGE_SAMPLE_PROJ_DREF_IMPLICIT_LOD
        | ops::IMAGE_SAMPLE_PROJ_DREF_EXPLICIT_LOD => wrong_texels(listing, instruction, Some(1)),
        ops::IMAGE_READ => wrong_texels(listing, instruction, None),
        ops::IMAGE_SAMPLE_IMPLICIT_LOD..=ops::IMAGE_DREF_GATHER => {
            wrong_texels(listing, instruction, Some(4))
        }
        _ => None,
    }
}
