// Inputs and outputs, as entry points pass them.

use ir_kinds::{Scalar, ScalarKind, VectorSize};
use ir_types::{ArraySize, StructMember, TypeInner};
use spirv_types::{TypeHandle, Types};

/// A number or a vector, or an array of those.
#[derive(Clone, Copy)]
pub struct Located {
    /// Number of elements, of an array.
    pub count: Option<u32>,
    /// Number of components of each, of a vector.
    pub size: Option<VectorSize>,
    /// The scalar of a component.
    pub scalar: Scalar,
}

/// The shape of a number, a vector, or an array of those; `None` for other types.
pub fn located_type<T: Types>(built: &T, ty: TypeHandle) -> Option<Located> {
    let inner = built.inner(ty)?;
    let (one, count) = match inner {
        TypeInner::Array {
            base,
            size: ArraySize::Constant(count),
            ..
        } => (built.inner(*base)?, Some(*count)),
        _ => (inner, None),
    };
    let (size, scalar) = match one {
        TypeInner::Scalar(scalar) => (None, *scalar),
        TypeInner::Vector { size, scalar } => (Some(*size), *scalar),
        _ => return None,
    };
    Some(Located {
        count,
        size,
        scalar,
    })
}

/// The members of a struct of the IR; none of another type.
pub fn members_of<T: Types>(built: &T, ty: TypeHandle) -> &[StructMember] {
    match built.inner(ty) {
        Some(TypeInner::Struct { members, .. }) => members.as_slice(),
        _ => &[],
    }
}

/// What the components of a location are that has components of these two kinds: bitcast the same, which a float and an integer only are
/// where they are flat.
pub fn common_kind(kind: ScalarKind, other: ScalarKind, is_flat: bool) -> Option<ScalarKind> {
    if kind == other || is_integer(kind) && is_integer(other) {
        return Some(kind);
    }
    if is_flat && kind != ScalarKind::Bool && other != ScalarKind::Bool {
        Some(ScalarKind::Uint)
    } else {
        None
    }
}

fn is_integer(kind: ScalarKind) -> bool {
    matches!(kind, ScalarKind::Sint | ScalarKind::Uint)
}
