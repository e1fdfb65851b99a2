//! Which types of a module are equivalent to its ray descriptor type.

ghost use Rattle.std.specs.Prelude.{◌≡◌, ◌↔◌, IfOk, IsTrue, Some};
ghost use Rattle.ir_types.specs.judged.Plain.{inner_view};
ghost use Rattle.function_statement_checks.specs.Descriptors.{AreDescriptors, IsDescriptorAt};
ghost use Rattle.typing_forms.specs.judged.Resolutions.{inner_at, types_view};

use ir_arena::handle::Handle;
use ir_sets::unique_arena::UniqueArena;
use ir_types::{IrType, TypeInner, key};
use std::alloc::{AllocError, Global};
use typing_forms::inner_of;

// Whether two types are equivalent.
#[tactic(auto, using(module_type_checks::proofs::SameInner::inner_equality))]
fn are_made_same(left: &TypeInner, right: &TypeInner) -> bool
    ensures { IsTrue result ↔ (inner_view left.now ≡ inner_view right.now) }
{
    *left == *right
}

// Whether two types of a module are equivalent.
fn are_made_same_at(
    types: &UniqueArena<IrType, key::IrType>,
    left: Handle<key::IrType>,
    right: Handle<key::IrType>,
) -> bool
    ensures { IsTrue result ↔ (inner_at (types_view types.now) left ≡ inner_at (types_view types.now) right) }
{
    match inner_of(types, left) {
        Some(inner) => match inner_of(types, right) {
            Some(other) => are_made_same(inner, other),
            None => false,
        },
        None => inner_of(types, right).is_none(),
    }
}

/// Whether a type of a module is equivalent to the declared one, if any.
pub(crate) fn is_descriptor(
    types: &UniqueArena<IrType, key::IrType>,
    declared: Option<Handle<key::IrType>>,
    ty: Handle<key::IrType>,
) -> bool
    ensures { IsTrue result ↔ IsDescriptorAt (types_view types.now) declared ty }
{
    match declared {
        Some(declared) => are_made_same_at(types, ty, declared),
        None => false,
    }
}

// For each type of a module, whether it is equivalent to the one at a handle. The error is out of memory.
fn marks_of(
    alloc: Global,
    types: &UniqueArena<IrType, key::IrType>,
    declared: Handle<key::IrType>,
) -> Result<Vec<bool>, AllocError>
    ensures { IfOk result (λ marks. AreDescriptors (types_view types.now) (Some declared) marks.items) }
{
    let count = types.len();
    let mut marks = Vec::with_capacity(alloc, count)?;
    for index in 0..count {
        marks.push(are_made_same_at(types, Handle::at(index), declared))?;
    }
    Ok(marks)
}

/// For each type of a module, whether it is equivalent to the declared one; for none, if none is declared. The time is that of
/// the types' parts. The error is out of memory.
pub fn descriptors_of(
    alloc: Global,
    types: &UniqueArena<IrType, key::IrType>,
    declared: Option<Handle<key::IrType>>,
) -> Result<Vec<bool>, AllocError>
    ensures { IfOk result (λ marks. AreDescriptors (types_view types.now) declared marks.items) }
{
    match declared {
        Some(declared) => marks_of(alloc, types, declared),
        None => Ok(Vec::new(alloc)),
    }
}
