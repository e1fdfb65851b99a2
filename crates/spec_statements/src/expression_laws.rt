//! Laws of the checks of expressions.
ghost use Rattle.spec_statements.specs.found.Laws.{MoreCapabilities, OneList};

/// A larger set of capabilities accepts every expression that a smaller one accepts.
pub fn more_capabilities()
    ensures { MoreCapabilities }
{}

/// The list of forms of the types of all expressions is unique, so the rules of an expression depend on nothing else.
pub fn one_list()
    ensures { OneList }
{}
