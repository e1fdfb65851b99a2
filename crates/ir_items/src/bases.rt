//! The global variable that a pointer expression points into.
ghost use Rattle.std.specs.Prelude.{◌≡◌, ◌<◌, List, length};
ghost use Rattle.ir_blocks.specs.IrTypes.{PlainExpression, expression_view};
ghost use Rattle.ir_items.specs.judged.Bases.{expressions_of, base_of, global_of, BasesPrecede, HasOrigin};

use crate::{Expression, Function, key};
use ir_blocks::ir_arena::handle::Handle;

/// The method of functions that follows the base expressions of accesses.
pub trait FunctionExt {
    /// The function's expressions.
    ghost expressions_in: { Self → List PlainExpression };

    /// The global variable that `pointer`, an expression of the function, points into: the expression at the end of the
    /// chain from an access to its base, up to the first expression that is no access. `None` if that is
    /// anything else (naga's `Function::originating_global`). It requires that the base of each access precedes it.
    fn originating_global(
        &self,
        pointer: Handle<key::Expression>,
    ) -> Option<Handle<key::GlobalVariable>>
        requires in_arena { pointer < length (expressions_in self.now) }
        requires bases { BasesPrecede (expressions_in self.now) }
        ensures { HasOrigin (expressions_in self.now) pointer result };
}

impl FunctionExt for Function {
    ghost use Rattle.ir_items.specs.judged.Bases.{expressions_of};

    ghost expressions_in = { λ f. expressions_of f.expressions };

    #[tactic(auto, using(crate::proofs::FlatLemmas::same_length))]
    fn originating_global(
        &self,
        pointer: Handle<key::Expression>,
    ) -> Option<Handle<key::GlobalVariable>> {
        origin_of(self, pointer)
    }
}

// The global variable at the end of the chain of bases from `pointer`.
fn origin_of(
    function: &Function,
    pointer: Handle<key::Expression>,
) -> Option<Handle<key::GlobalVariable>>
    requires in_arena { pointer < length function.now.expressions }
    requires bases { BasesPrecede (expressions_of function.now.expressions) }
    ensures { HasOrigin (expressions_of function.now.expressions) pointer result }
{
    let mut current = pointer;
    while let Some(base) = base_of(&function.expressions[current]) {
        current = base;
    }
    global_of(&function.expressions[current])
}

// The base of an access.
fn base_of(expression: &Expression) -> Option<Handle<key::Expression>>
    ensures { result ≡ base_of (expression_view expression.now) }
{
    match *expression {
        Expression::Access { base, .. } | Expression::AccessIndex { base, .. } => Some(base),
        _ => None,
    }
}

// The global variable of a `GlobalVariable` expression.
fn global_of(expression: &Expression) -> Option<Handle<key::GlobalVariable>>
    ensures { result ≡ global_of (expression_view expression.now) }
{
    match *expression {
        Expression::GlobalVariable(global) => Some(global),
        _ => None,
    }
}
