//! Comparing types by the owner of the arena: a module, or the context of global expressions.

ghost use Rattle.std.specs.Prelude.{◌↔◌, IsTrue, List};
ghost use Rattle.ir_types.specs.judged.Plain.{PlainType};
ghost use Rattle.typing_forms.specs.judged.Resolutions.{types_view, resolution_view};
ghost use Rattle.typing_forms.specs.judged.Forms.{NoStructValue};
ghost use Rattle.typing_forms.specs.found.Equivalence.{AreEquivalent};

use ir_items::{GlobalCtx, Module};
use typing_forms::{TypeResolution, compare_types};

/// An owner of types to compare by (`compare_types` of naga's `Module` and `GlobalCtx`).
pub trait CompareTypes {
    /// The types.
    ghost types_of: { Self → List PlainType };

    /// Whether two types are equivalent, as `typing_forms::compare_types` says.
    fn compare_types(&self, lhs: &TypeResolution, rhs: &TypeResolution) -> bool
        requires left { NoStructValue (resolution_view lhs.now) }
        requires right { NoStructValue (resolution_view rhs.now) }
        ensures { IsTrue result
            ↔ AreEquivalent (types_of self.now) (resolution_view lhs.now) (resolution_view rhs.now) };
}

impl CompareTypes for Module {
    ghost types_of = { λ m. types_view m.types };

    fn compare_types(&self, lhs: &TypeResolution, rhs: &TypeResolution) -> bool {
        compare_types(lhs, rhs, &self.types)
    }
}

impl<'a> CompareTypes for GlobalCtx<'a> {
    ghost types_of = { λ c. types_view c.types.now };

    fn compare_types(&self, lhs: &TypeResolution, rhs: &TypeResolution) -> bool {
        compare_types(lhs, rhs, self.types)
    }
}
