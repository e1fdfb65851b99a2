// Laws of types and their views.
ghost use Rattle.std.specs.Prelude.{◌≡◌, ◌↔◌, IsTrue};
ghost use Rattle.ir_types.specs.judged.Plain.{type_view, inner_view};
ghost use Rattle.ir_types.specs.found.Views.{HoldsNoStruct};

use crate::types::{IrType, TypeInner};

/// Two types compare equal exactly if their views are equal: the names and the inner types.
#[tactic(auto, using(crate::proofs::TypeEquality::type_eq))]
pub fn type_equality(left: &IrType, right: &IrType) -> bool
    ensures { IsTrue result ↔ (type_view left.now ≡ type_view right.now) }
{
    *left == *right
}

/// The view of an inner type is never a `Struct` as it is, because a `Struct` is viewed by its members.
#[tactic(auto, using(crate::specs::found::Views::holds_no_struct))]
pub fn no_struct_is_held(inner: &TypeInner)
    ensures { HoldsNoStruct (inner_view inner.now) }
{
    let _ = inner;
}
