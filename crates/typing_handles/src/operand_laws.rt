//! Laws of the handle conditions.

ghost use Rattle.typing_handles.specs.SameOperands.{SameOperands, SameOrder};

/// The operands of an expression are those of the analysis, without their uses.
pub fn same_operands()
    ensures { SameOperands }
{}

/// The operands of expressions precede in the sense of [`crate::operands_precede`] exactly if they do in that of the
/// analysis.
pub fn same_order()
    ensures { SameOrder }
{}
