//! Laws of the named scalars and of swizzle components.

ghost use Rattle.std.specs.Prelude.{◌≡◌, ◌≤◌, [], ◌∷◌, map};
ghost use Rattle.ir_kinds.specs.judged.Scalars.{abstract_float, abstract_int, boolean, component_place, component_count, floating, signed, unsigned};

use crate::scalars::{Scalar, SwizzleComponent, VectorSize};

/// Each named scalar has the kind and the width of its name.
pub fn scalar_constants()
    ensures i16 { Scalar.I16 ≡ signed 2 }
    ensures i32 { Scalar.I32 ≡ signed 4 }
    ensures i64 { Scalar.I64 ≡ signed 8 }
    ensures u16 { Scalar.U16 ≡ unsigned 2 }
    ensures u32 { Scalar.U32 ≡ unsigned 4 }
    ensures u64 { Scalar.U64 ≡ unsigned 8 }
    ensures f16 { Scalar.F16 ≡ floating 2 }
    ensures f32 { Scalar.F32 ≡ floating 4 }
    ensures f64 { Scalar.F64 ≡ floating 8 }
    ensures bool { Scalar.BOOL ≡ boolean }
    ensures abstract_int { Scalar.ABSTRACT_INT ≡ abstract_int }
    ensures abstract_float { Scalar.ABSTRACT_FLOAT ≡ abstract_float }
{}

/// A vector has four components at most; `x`, `y`, `z`, `w` are these in order.
pub fn vector_constants(size: VectorSize)
    ensures greatest { VectorSize.MAX ≡ component_count VectorSize.Quad }
    ensures bound { component_count size ≤ VectorSize.MAX }
    ensures components { map component_place SwizzleComponent.XYZW ≡ 0 ∷ 1 ∷ 2 ∷ 3 ∷ [] }
{}
