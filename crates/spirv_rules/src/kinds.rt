// Numbers and bools, and vectors of them, by their types.

use spirv_numbers::ops;
use spirv_words::{Instruction, Listing, Malformed};

/// What scalars are.
#[derive(Clone, Copy, PartialEq, Eq)]
pub(crate) enum Class {
    /// Bools.
    Bool,
    /// Integers, with a sign or without one.
    Int,
    /// Floats.
    Float,
}

/// A scalar, or a vector of so many.
#[derive(Clone, Copy, PartialEq, Eq)]
pub(crate) struct Kind {
    /// What each scalar is.
    pub class: Class,
    /// How many bits it has; 0 of a bool.
    pub width: u32,
    /// How many there are.
    pub count: u32,
}

/// The shape of a type.
#[derive(Clone, Copy, PartialEq, Eq)]
pub(crate) enum Of {
    /// A scalar or a vector.
    Kind(Kind),
    /// A type of the core that is neither.
    Other,
    /// No type, or one of an extension.
    Unknown,
}

// A scalar of this class.
fn scalar(listing: &Listing, ty: &Instruction, class: Class) -> Kind {
    let width = match class {
        Class::Bool => 0,
        Class::Int | Class::Float => listing.operand(ty, 0).unwrap_or(0),
    };
    Kind {
        class,
        width,
        count: 1,
    }
}

// What a scalar's type is.
fn scalar_of(listing: &Listing, ty: &Instruction) -> Of {
    match ty.opcode {
        ops::TYPE_BOOL => Of::Kind(scalar(listing, ty, Class::Bool)),
        ops::TYPE_INT => Of::Kind(scalar(listing, ty, Class::Int)),
        ops::TYPE_FLOAT => Of::Kind(scalar(listing, ty, Class::Float)),
        ops::TYPE_VOID..=ops::TYPE_FUNCTION => Of::Other,
        _ => Of::Unknown,
    }
}

/// What the type with this id is.
pub(crate) fn kind_of(listing: &Listing, id: u32) -> Of {
    let ty = listing.defined(id);
    if ty.opcode != ops::TYPE_VECTOR {
        return scalar_of(listing, &ty);
    }
    let component = listing.defined(listing.operand(&ty, 0).unwrap_or(0));
    match scalar_of(listing, &component) {
        Of::Kind(kind) => Of::Kind(Kind {
            count: listing.operand(&ty, 1).unwrap_or(0),
            ..kind
        }),
        other => other,
    }
}

/// The type of the value that the operand at this index is; 0 where there is none.
pub(crate) fn type_at(listing: &Listing, instruction: &Instruction, place: usize) -> u32 {
    let id = listing.operand(instruction, place).unwrap_or(0);
    listing.defined(id).ty
}

/// What the operand at this index is.
pub(crate) fn kind_at(listing: &Listing, instruction: &Instruction, place: usize) -> Of {
    kind_of(listing, type_at(listing, instruction, place))
}

/// What is wrong with types, if anything.
pub(crate) type Wrong = Option<Malformed>;

/// Whether what is known of a type is of this class, and where a width or a count is said, has it.
pub(crate) fn is_of(of: Of, class: Class, width: Option<u32>, count: Option<u32>) -> bool {
    match of {
        Of::Kind(kind) => {
            kind.class == class
                && (width.is_none() || width == Some(kind.width))
                && (count.is_none() || count == Some(kind.count))
        }
        Of::Other => false,
        Of::Unknown => true,
    }
}
