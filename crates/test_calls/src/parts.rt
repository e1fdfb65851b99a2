// The parts of a type, its size, and the number of its elements.
use crate::given::{Types, are_not_structs, inner};
use ir_types::TypeInner;
use serde_json::Value;
use std::alloc::{AllocError, Global};
use test_support::call::{freeing, no_call, number, text, told};
use typing_forms::{TypeInnerExt, form_in, types_go_back};

// The size if it is at most the maximum, and the size however large.
fn sizes(inner: &TypeInner) -> (Option<u64>, u64) {
    (inner.try_size(), inner.size())
}

// The result of a call that needs no other type.
fn of_one(alloc: Global, inner: &TypeInner, call: &Value) -> Result<String, AllocError> {
    match text(call, 0) {
        "scalar" => told(
            alloc,
            (inner.scalar(), inner.scalar_kind(), inner.scalar_width()),
        ),
        "vector_size_and_scalar" => told(alloc, inner.vector_size_and_scalar()),
        "components" => told(alloc, inner.components()),
        "component_type" => told(alloc, inner.component_type(number(call, 2) as usize)),
        "pointer" => told(alloc, (inner.pointer_space(), inner.pointer_base_type())),
        "image_storage_coordinates" => told(alloc, inner.image_storage_coordinates()),
        "size" => told(alloc, sizes(inner)),
        _ => no_call(alloc),
    }
}

// What the types of the module tell of a type whose elements and members may be among them.
fn of_elements(
    alloc: Global,
    inner: &TypeInner,
    types: &Types,
    call: &Value,
) -> Result<String, AllocError> {
    if !types_go_back(types) {
        return no_call(alloc);
    }
    match text(call, 0) {
        "scalar_for_conversions" => told(
            alloc,
            (
                inner.scalar_for_conversions(types),
                inner.is_abstract(types),
            ),
        ),
        "is_dynamically_sized" => told(alloc, inner.is_dynamically_sized(types)),
        "is_constructible" => told(alloc, inner.is_constructible(alloc, types)),
        _ => of_one(alloc, inner, call),
    }
}

// The result of a call on one type.
fn of_types(
    alloc: Global,
    inner: &TypeInner,
    types: &Types,
    call: &Value,
) -> Result<String, AllocError> {
    match text(call, 0) {
        "is_atomic_pointer" => told(alloc, inner.is_atomic_pointer(types)),
        "canonical_form" => told(alloc, inner.canonical_form(types)),
        "indexable_length" => told(alloc, inner.indexable_length(types)),
        "form_in" => told(alloc, form_in(types, None, inner)),
        _ => of_elements(alloc, inner, types, call),
    }
}

/// The result of a call on the type after its name.
pub fn of_type(alloc: Global, types: &Types, call: &Value) -> Result<String, AllocError> {
    match inner(alloc, call, 1)? {
        Some(inner) => freeing(of_types(alloc, &inner, types, call), inner),
        None => no_call(alloc),
    }
}

// The result of a call on two types.
fn of_both(
    alloc: Global,
    left: &TypeInner,
    right: &TypeInner,
    types: &Types,
    call: &Value,
) -> Result<String, AllocError> {
    match text(call, 0) {
        "non_struct_equivalent" if are_not_structs(left, right) => {
            told(alloc, left.non_struct_equivalent(right, types))
        }
        "automatically_converts_to" if types_go_back(types) => {
            told(alloc, left.automatically_converts_to(right, types))
        }
        _ => no_call(alloc),
    }
}

// The result of a call on a type and the one after it.
fn of_other(
    alloc: Global,
    left: &TypeInner,
    types: &Types,
    call: &Value,
) -> Result<String, AllocError> {
    match inner(alloc, call, 2)? {
        Some(right) => freeing(of_both(alloc, left, &right, types, call), right),
        None => no_call(alloc),
    }
}

/// The result of a call on the two types after its name.
pub fn of_pair(alloc: Global, types: &Types, call: &Value) -> Result<String, AllocError> {
    match inner(alloc, call, 1)? {
        Some(left) => freeing(of_other(alloc, &left, types, call), left),
        None => no_call(alloc),
    }
}
