//! Equivalence of types.

ghost use Rattle.std.specs.Prelude.{◌↔◌, IsTrue};
ghost use Rattle.typing_forms.specs.judged.Resolutions.{types_view, resolution_view};
ghost use Rattle.typing_forms.specs.judged.Forms.{NoStructValue};
ghost use Rattle.typing_forms.specs.found.Equivalence.{AreEquivalent};

use crate::laws::form_equality;
use crate::{TypeResolution, form_of};
use ir_sets::unique_arena::UniqueArena;
use ir_types::{IrType, key};

/// Whether two types are equivalent: both exist, and their canonical forms are equal (naga's `compare_types`). Names
/// don't matter, nor whether a type is given by handle or by value, except for structs: a struct is identified by its handle,
/// and none may be given by value. A handle without a type is equivalent to nothing.
pub fn compare_types(
    lhs: &TypeResolution,
    rhs: &TypeResolution,
    types: &UniqueArena<IrType, key::IrType>,
) -> bool
    requires left { NoStructValue (resolution_view lhs.now) }
    requires right { NoStructValue (resolution_view rhs.now) }
    ensures { IsTrue result ↔ AreEquivalent (types_view types.now) (resolution_view lhs.now) (resolution_view rhs.now) }
{
    lhs.is_among(types) && form_equality(form_of(types, lhs), form_of(types, rhs))
}
