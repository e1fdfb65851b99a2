// Types by handle or by inner type: their forms, and which are equivalent.
use crate::given::{Types, inner, is_no_struct, resolution};
use ir_arena::handle::Handle;
use ir_items::Module;
use ir_types::TypeInner;
use serde_json::Value;
use std::alloc::{AllocError, Global};
use test_support::call::{freeing, handle, no_call, text, told};
use typing_forms::laws::form_equality;
use typing_forms::{TypeResolution, compare_types, form_in, form_of, form_of_type, inner_of};
use typing_infos::CompareTypes;

// The inner type of a resolution, if its handle is in the arena.
fn see_inner(
    alloc: Global,
    resolution: &TypeResolution,
    types: &Types,
) -> Result<String, AllocError> {
    if resolution.is_among(types) {
        told(alloc, resolution.inner_with(types))
    } else {
        no_call(alloc)
    }
}

// Whether a copy equals its source, and the handle of the copy.
fn copied(alloc: Global, source: &TypeResolution) -> Result<(bool, Option<usize>), AllocError> {
    let copy = source.clone(alloc)?;
    Ok(freeing((copy == *source, copy.handle().map(Handle::index)), copy))
}

fn see_form(
    alloc: Global,
    resolution: &TypeResolution,
    types: &Types,
) -> Result<String, AllocError> {
    told(alloc, (form_of(types, resolution), resolution))
}

// The result of a call on one resolution.
fn of_one(
    alloc: Global,
    resolution: &TypeResolution,
    types: &Types,
    call: &Value,
) -> Result<String, AllocError> {
    match text(call, 0) {
        "handle" => told(alloc, resolution.handle().map(Handle::index)),
        "inner_with" => see_inner(alloc, resolution, types),
        "clone" => told(alloc, copied(alloc, resolution)),
        "form_of" => see_form(alloc, resolution, types),
        _ => no_call(alloc),
    }
}

/// The result of a call on the resolution after its name.
pub fn of_resolution(alloc: Global, types: &Types, call: &Value) -> Result<String, AllocError> {
    match resolution(alloc, call, 1)? {
        Some(resolution) => freeing(of_one(alloc, &resolution, types, call), resolution),
        None => no_call(alloc),
    }
}

/// The form of the type at a handle, and its inner type.
pub fn of_handle(alloc: Global, types: &Types, call: &Value) -> Result<String, AllocError> {
    let handle = handle(call, 1);
    told(
        alloc,
        (form_of_type(types, handle), inner_of(types, handle)),
    )
}

// Whether two types have the same form.
fn are_alike(
    alloc: Global,
    types: &Types,
    left: &TypeInner,
    right: &TypeInner,
) -> Result<String, AllocError> {
    let forms = (form_in(types, None, left), form_in(types, None, right));
    told(alloc, form_equality(forms.0, forms.1))
}

// Whether a type and the one after it have the same form.
fn of_form(
    alloc: Global,
    types: &Types,
    left: &TypeInner,
    call: &Value,
) -> Result<String, AllocError> {
    match inner(alloc, call, 2)? {
        Some(right) => freeing(are_alike(alloc, types, left, &right), right),
        None => no_call(alloc),
    }
}

/// Whether two types given by value have the same form.
pub fn of_forms(alloc: Global, types: &Types, call: &Value) -> Result<String, AllocError> {
    match inner(alloc, call, 1)? {
        Some(left) => freeing(of_form(alloc, types, &left, call), left),
        None => no_call(alloc),
    }
}

// Whether two types are equivalent in the arena, in the module, and by what its expressions may name.
fn compared(
    module: &Module,
    left: &TypeResolution,
    right: &TypeResolution,
) -> Option<(bool, bool, bool)> {
    if !is_no_struct(left) || !is_no_struct(right) {
        return None;
    }
    Some((
        compare_types(left, right, &module.types),
        module.compare_types(left, right),
        module.to_ctx().compare_types(left, right),
    ))
}

// Whether a type and the one after it are equivalent.
fn of_other(
    alloc: Global,
    module: &Module,
    left: &TypeResolution,
    call: &Value,
) -> Result<String, AllocError> {
    match resolution(alloc, call, 2)? {
        Some(right) => freeing(told(alloc, compared(module, left, &right)), right),
        None => no_call(alloc),
    }
}

/// Whether the two types after a name are equivalent.
pub fn of_pair(alloc: Global, module: &Module, call: &Value) -> Result<String, AllocError> {
    match resolution(alloc, call, 1)? {
        Some(left) => freeing(of_other(alloc, module, &left, call), left),
        None => no_call(alloc),
    }
}
