//! Implicit conversions between types.

ghost use Rattle.std.specs.Prelude.{◌≡◌, IsTrue, IfSome, IfNone, None};
ghost use Rattle.ir_kinds.specs.declared.scalars.Scalar.{Scalar};
ghost use Rattle.ir_types.specs.judged.Plain.{inner_view};
ghost use Rattle.typing_forms.specs.judged.Order.{TypesGoBack};
ghost use Rattle.typing_forms.specs.judged.Ranks.{conversion};
ghost use Rattle.typing_forms.specs.judged.Resolutions.{types_view};
ghost use Rattle.typing_forms.specs.found.Conversions.{same_size, same_count, scalars_of, bases_of, both_at, SameShape, SameShapeAt, Converts};

use crate::{converted_rank, inner_of};
use ir_kinds::{Scalar, VectorSize};
use ir_sets::unique_arena::UniqueArena;
use ir_types::ir_arena::handle::Handle;
use ir_types::{ArraySize, IrType, TypeInner, key};

fn same_size(left: VectorSize, right: VectorSize) -> bool
    ensures { result ≡ same_size left right }
{
    left == right
}

fn same_count(left: ArraySize, right: ArraySize) -> bool
    ensures { result ≡ same_count left right }
{
    match left {
        ArraySize::Constant(left) => match right {
            ArraySize::Constant(right) => left == right,
            _ => false,
        },
        ArraySize::Pending(left) => match right {
            ArraySize::Pending(right) => left == right,
            _ => false,
        },
        ArraySize::Dynamic => match right {
            ArraySize::Dynamic => true,
            _ => false,
        },
    }
}

// The scalars of two scalars, of two vectors of one size, or of two matrices of one size.
fn scalars_of(from: &TypeInner, goal: &TypeInner) -> Option<(Scalar, Scalar)>
    ensures { result ≡ scalars_of (inner_view from.now) (inner_view goal.now) }
{
    match *from {
        TypeInner::Scalar(from) => match *goal {
            TypeInner::Scalar(goal) => Some((from, goal)),
            _ => None,
        },
        TypeInner::Vector { size, scalar } => match *goal {
            TypeInner::Vector {
                size: length,
                scalar: goal,
            } if same_size(size, length) => Some((scalar, goal)),
            _ => None,
        },
        TypeInner::Matrix {
            columns,
            rows,
            scalar,
        } => match *goal {
            TypeInner::Matrix {
                columns: others,
                rows: lines,
                scalar: goal,
            } if same_size(columns, others) && same_size(rows, lines) => Some((scalar, goal)),
            _ => None,
        },
        _ => None,
    }
}

// The element types of two arrays of one length.
fn bases_of(
    from: &TypeInner,
    goal: &TypeInner,
) -> Option<(Handle<key::IrType>, Handle<key::IrType>)>
    ensures { result ≡ bases_of (inner_view from.now) (inner_view goal.now) }
{
    match *from {
        TypeInner::Array { base, size, .. } => match *goal {
            TypeInner::Array {
                base: other,
                size: length,
                ..
            } if same_count(size, length) => Some((base, other)),
            _ => None,
        },
        _ => None,
    }
}

// The element types of two arrays at two handles; `None` if a handle has no type.
fn scalars_at(
    types: &UniqueArena<IrType, key::IrType>,
    from: Handle<key::IrType>,
    goal: Handle<key::IrType>,
) -> Option<(Scalar, Scalar)>
    ensures { result ≡ both_at scalars_of (types_view types.now) from goal }
{
    match inner_of(types, from) {
        Some(from) => match inner_of(types, goal) {
            Some(goal) => scalars_of(from, goal),
            None => None,
        },
        None => None,
    }
}

fn bases_at(
    types: &UniqueArena<IrType, key::IrType>,
    from: Handle<key::IrType>,
    goal: Handle<key::IrType>,
) -> Option<(Handle<key::IrType>, Handle<key::IrType>)>
    ensures { result ≡ both_at bases_of (types_view types.now) from goal }
{
    match inner_of(types, from) {
        Some(from) => match inner_of(types, goal) {
            Some(goal) => bases_of(from, goal),
            None => None,
        },
        None => None,
    }
}

// The scalars in which the types at two handles, which have the same shape, differ.
fn differing_at(
    types: &UniqueArena<IrType, key::IrType>,
    from: Handle<key::IrType>,
    goal: Handle<key::IrType>,
) -> Option<(Scalar, Scalar)>
    requires { TypesGoBack (types_view types.now) }
    ensures some { IfSome result (λ p. SameShapeAt (types_view types.now) from goal p.0 p.1) }
    ensures none { IfNone result ((s t : Scalar) → SameShapeAt (types_view types.now) from goal s t → ⊥) }
{
    let mut left = from;
    let mut right = goal;
    while let Some(bases) = bases_at(types, left, right) {
        left = bases.0;
        right = bases.1;
    }
    scalars_at(types, left, right)
}

// The scalars in which two types of the same shape differ, in the elements of arrays at any depth.
fn differing_scalars(
    types: &UniqueArena<IrType, key::IrType>,
    from: &TypeInner,
    goal: &TypeInner,
) -> Option<(Scalar, Scalar)>
    requires { TypesGoBack (types_view types.now) }
    ensures some { IfSome result (λ p. SameShape (types_view types.now) (inner_view from.now) (inner_view goal.now) p.0 p.1) }
    ensures none { IfNone result ((s t : Scalar)
        → SameShape (types_view types.now) (inner_view from.now) (inner_view goal.now) s t → ⊥) }
{
    match bases_of(from, goal) {
        Some(bases) => differing_at(types, bases.0, bases.1),
        None => scalars_of(from, goal),
    }
}

// The scalars that a conversion from the one type to the other converts.
pub(crate) fn automatically_converts_to(
    types: &UniqueArena<IrType, key::IrType>,
    from: &TypeInner,
    goal: &TypeInner,
) -> Option<(Scalar, Scalar)>
    requires { TypesGoBack (types_view types.now) }
    ensures some { IfSome result (λ p. Converts (types_view types.now) (inner_view from.now) (inner_view goal.now) p.0 p.1) }
    ensures none { IfNone result ((s t : Scalar)
        → SameShape (types_view types.now) (inner_view from.now) (inner_view goal.now) s t → conversion s t ≡ None) }
{
    let (from, goal) = differing_scalars(types, from, goal)?;
    match converted_rank(from, goal) {
        Some(_) => Some((from, goal)),
        None => None,
    }
}
