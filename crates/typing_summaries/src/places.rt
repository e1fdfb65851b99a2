//! Denotations of expressions in their function.

ghost use Rattle.std.specs.Prelude.{◌≡◌, Some, map, slice_get, option_map};
ghost use Rattle.std.specs.Option.{option_copied};
ghost use Rattle.ir_types.specs.judged.ExpressionPlain.{expression_view};
ghost use Rattle.ir_items.specs.found.GlobalView.{values_of};
ghost use Rattle.spec_expressions.specs.judged.CallChains.{global_or_argument, base_denotes, denotes};

use ir_arena::arena::Arena;
use ir_arena::handle::Handle;
use ir_types::{Expression, key};
use spec_expressions::GlobalOrArgument;

/// The expressions of a function.
pub type Expressions = Arena<Expression, key::Expression>;

// The expression at a handle, if there is one.
#[tactic(auto, using(crate::proofs::Lookups::found, crate::proofs::Lookups::missing))]
fn get(expressions: &Expressions, handle: Handle<key::Expression>) -> Option<&Expression>
    ensures { slice_get (map expression_view (values_of expressions.now)) handle ≡ option_map expression_view (option_copied result) }
{
    if handle.index() < expressions.len() {
        Some(&expressions[handle])
    } else {
        None
    }
}

// The denotation of the base of an access.
fn base_means(expression: &Expression) -> Option<GlobalOrArgument>
    ensures { result ≡ base_denotes (Some (expression_view expression.now)) }
{
    match *expression {
        Expression::GlobalVariable(global) => Some(GlobalOrArgument::Global(global)),
        _ => None,
    }
}

fn base_place(expressions: &Expressions, base: Handle<key::Expression>) -> Option<GlobalOrArgument>
    ensures { result ≡ base_denotes (slice_get (map expression_view (values_of expressions.now)) base) }
{
    match get(expressions, base) {
        Some(expression) => base_means(expression),
        None => None,
    }
}

fn means(expressions: &Expressions, expression: &Expression) -> Option<GlobalOrArgument>
    ensures { result ≡ denotes (map expression_view (values_of expressions.now)) (Some (expression_view expression.now)) }
{
    match *expression {
        Expression::GlobalVariable(global) => Some(GlobalOrArgument::Global(global)),
        Expression::FunctionArgument(number) => Some(GlobalOrArgument::Argument(number)),
        Expression::Access { base, .. } => base_place(expressions, base),
        Expression::AccessIndex { base, .. } => base_place(expressions, base),
        _ => None,
    }
}

/// The denotation of the expression at a handle: a global variable, if it is one or an access directly on one, or an
/// argument.
pub fn place(expressions: &Expressions, handle: Handle<key::Expression>) -> Option<GlobalOrArgument>
    ensures { result ≡ global_or_argument (map expression_view (values_of expressions.now)) handle }
{
    match get(expressions, handle) {
        Some(expression) => means(expressions, expression),
        None => None,
    }
}
