//! Types built from a scalar, and properties of scalar kinds.

ghost use Rattle.std.specs.Prelude.{◌≡◌, ◌≢◌, ◌↔◌, IsTrue};
ghost use Rattle.ir_kinds.specs.declared.scalars.Scalar.{Scalar};
ghost use Rattle.ir_kinds.specs.declared.scalars.ScalarKind.{ScalarKind};
ghost use Rattle.ir_kinds.specs.declared.scalars.ScalarKind.TheVariants as kind;
ghost use Rattle.ir_types.specs.judged.Plain.{plain, inner_view};
ghost use Rattle.ir_types.specs.declared.types.TypeInner.TheVariants as inner;

use ir_kinds::{Scalar, ScalarKind, VectorSize};
use ir_types::TypeInner;

/// The types that are built from one scalar (methods of naga's `Scalar`).
pub trait ScalarExt: Sized {
    /// The scalar itself.
    ghost scalar_of: { Self → Scalar };

    /// The scalar as a type (naga's `Scalar::to_inner_scalar`).
    fn to_inner_scalar(self) -> TypeInner
        ensures { inner_view result ≡ plain (inner.Scalar (scalar_of self)) };

    /// A vector of the scalar (naga's `Scalar::to_inner_vector`).
    fn to_inner_vector(self, size: VectorSize) -> TypeInner
        ensures { inner_view result ≡ plain (inner.Vector size (scalar_of self)) };

    /// An atomic of the scalar (naga's `Scalar::to_inner_atomic`).
    fn to_inner_atomic(self) -> TypeInner
        ensures { inner_view result ≡ plain (inner.Atomic (scalar_of self)) };
}

impl ScalarExt for Scalar {
    ghost scalar_of = { λ s. s };

    fn to_inner_scalar(self) -> TypeInner {
        TypeInner::Scalar(self)
    }

    fn to_inner_vector(self, size: VectorSize) -> TypeInner {
        TypeInner::Vector { size, scalar: self }
    }

    fn to_inner_atomic(self) -> TypeInner {
        TypeInner::Atomic(self)
    }
}

/// Properties of a scalar kind (methods of naga's `ScalarKind`).
pub trait ScalarKindExt: Sized {
    /// The kind itself.
    ghost kind_of: { Self → ScalarKind };

    /// Whether the kind is numeric: any but `Bool` (naga's `ScalarKind::is_numeric`).
    fn is_numeric(self) -> bool
        ensures { IsTrue result ↔ (kind_of self ≢ kind.Bool) };
}

impl ScalarKindExt for ScalarKind {
    ghost kind_of = { λ k. k };

    fn is_numeric(self) -> bool {
        ScalarKind::is_numeric(self)
    }
}
