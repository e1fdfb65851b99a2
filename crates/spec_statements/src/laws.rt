//! Laws of the rules of statements.
ghost use Rattle.spec_statements.specs.found.Answered.{OnceByWalk};
ghost use Rattle.spec_statements.specs.found.SureLevel.{StrictByWalk};
ghost use Rattle.spec_statements.specs.judged.Visible.{ScopeByWalk};

/// An expression is in scope at a place if it is always in scope, or if a walk in program order carries it there: the walk adds
/// what each statement introduces, drops it at the end of its block, and keeps that of a loop's body for its continuing block
/// and its condition.
pub fn scope_by_walk()
    ensures { ScopeByWalk }
{}

/// An expression is in strict scope at a place if it is always in scope, or if such a walk carries it there that also drops, at
/// the end of a loop's body, what follows a statement that contains a continue of the loop.
pub fn strict_by_walk()
    ensures { StrictByWalk }
{}

/// No two statements have the same result expression exactly if none has one that a walk in program order has seen
/// before.
pub fn once_by_walk()
    ensures { OnceByWalk }
{}
