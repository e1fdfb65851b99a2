//! Laws of modules with valid handles.

ghost use Rattle.module_handles.specs.Steps.{OrderGivesExpressions, OrderGivesOrigins};
ghost use Rattle.module_handles.specs.Types.{OrderGivesTypes};

/// In a module with valid handles, the items that expressions reference exist and operands precede, as type inference of
/// global expressions and the analysis of functions require.
pub fn order_gives_expressions()
    ensures { OrderGivesExpressions }
{}

/// In a module with valid handles, the kind of each expression follows from earlier ones, as the expression kind tracker requires.
pub fn order_gives_origins()
    ensures { OrderGivesOrigins }
{}

/// In a module with valid handles, the type of every expression of a function is a type of the module, or built of such: none
/// is a struct without a handle.
#[tactic(auto, using(crate::proofs::OrderedTypes::order_gives_types))]
pub fn order_gives_types()
    ensures { OrderGivesTypes }
{}
