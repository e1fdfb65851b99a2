//! Laws of modules with valid handles.

ghost use Rattle.typing_handles.specs.Conditions.{OrderGivesConditions};

/// A module with valid handles satisfies what later passes require: types refer to earlier types, as layout, info and validation
/// of types require; filter parents and operands precede; and the handles of each function are in range, and its
/// callees precede, as the analysis of functions requires.
pub fn order_gives_conditions()
    ensures { OrderGivesConditions }
{}
