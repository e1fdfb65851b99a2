// Scalars: their types, their conversions, and error messages.
use crate::given::scalar;
use ir_kinds::{Scalar, ScalarKind, VectorSize};
use serde_json::Value;
use std::alloc::{AllocError, Global};
use test_support::call::{no_call, number, text, told};
use typing_forms::{
    IndexableLengthError, MAX_TYPE_SIZE, ResolveArraySizeError, ScalarExt, ScalarKindExt,
    conversion_rank, converted_rank,
};

const fn vector_size(count: u32) -> VectorSize {
    match count {
        2 => VectorSize::Bi,
        3 => VectorSize::Tri,
        _ => VectorSize::Quad,
    }
}

// Whether a scalar kind is numeric.
fn is_numeric(scalar: Scalar) -> (ScalarKind, bool) {
    (scalar.kind, ScalarKindExt::is_numeric(scalar.kind))
}

/// The result of a call on a scalar.
pub fn of_scalar(alloc: Global, call: &Value) -> Result<String, AllocError> {
    let left = scalar(call, 1);
    let right = scalar(call, 2);
    match text(call, 0) {
        "is_numeric" => told(alloc, is_numeric(left)),
        "to_inner_scalar" => told(alloc, left.to_inner_scalar()),
        "to_inner_vector" => told(alloc, left.to_inner_vector(vector_size(number(call, 2)))),
        "to_inner_atomic" => told(alloc, left.to_inner_atomic()),
        "conversion_rank" => told(alloc, conversion_rank(left, right)),
        "converted_rank" => told(alloc, converted_rank(left, right)),
        "greatest_size" => told(alloc, MAX_TYPE_SIZE),
        _ => of_errors(alloc, text(call, 0)),
    }
}

// An error message.
fn of_errors(alloc: Global, call: &str) -> Result<String, AllocError> {
    let unknown = ResolveArraySizeError::ExpectedPositiveArrayLength;
    match call {
        "not_indexable" => format!(in alloc; "{}", IndexableLengthError::TypeNotIndexable),
        "not_positive" => {
            format!(in alloc; "{}", IndexableLengthError::ResolveArraySizeError(unknown))
        }
        _ => no_call(alloc),
    }
}
