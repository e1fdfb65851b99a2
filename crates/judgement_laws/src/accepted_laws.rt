//! Laws of every valid module, from the definitions alone.
//!
//! The functions do nothing: their contracts are the laws.

ghost use Rattle.judgement_laws.specs.found.AcceptedLaws.{CallsFall, BindingsDiffer, AnsweredByOne, AnsweredByOneInEntries};

/// Each call chain that begins at a function or an entry point of a module with valid handles calls functions of
/// strictly decreasing index. So the call graph is acyclic, and a chain has at most as many calls as the module has functions.
pub fn calls_fall()
    ensures { CallsFall }
{}

/// If entry points are valid and bindings are checked, the global variables that a report lists for an entry point, its
/// payload and its mesh output included, have distinct bindings, as far as they have any.
pub fn bindings_differ()
    ensures { BindingsDiffer }
{}

/// If functions are valid, and bodies and expressions are checked, each expression that denotes the result of a call is the
/// result of exactly one `Call` statement of that function, and each that denotes the result of an atomic operation is that of one
/// `Atomic` statement, which is a compare-exchange exactly if the expression says so.
pub fn answered_by_one()
    ensures { AnsweredByOne }
{}

/// The same for the functions of entry points, if entry points are valid.
pub fn answered_by_one_in_entries()
    ensures { AnsweredByOneInEntries }
{}
