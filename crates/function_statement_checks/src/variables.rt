//! The global variables named by expressions.

ghost use Rattle.std.specs.Prelude.{◌≡◌, option_map, slice_get};
ghost use Rattle.std.specs.Option.{option_or};
ghost use Rattle.ir_types.specs.judged.ExpressionPlain.{expression_view};
ghost use Rattle.ir_items.specs.found.GlobalView.{global_view};
ghost use Rattle.ir_items.specs.judged.Bases.{global_of};
ghost use Rattle.spec_statements.specs.judged.Variables.{variable_at, accessed_at};

use crate::context::StatementContext;
use crate::pointers::base_at;
use ir_arena::handle::Handle;
use ir_items::GlobalVariable;
use ir_types::{Expression, key};

// The global variable that an expression names.
fn global_of(expression: &Expression) -> Option<Handle<key::GlobalVariable>>
    ensures { result ≡ global_of (expression_view expression.now) }
{
    match *expression {
        Expression::GlobalVariable(variable) => Some(variable),
        _ => None,
    }
}

/// The global variable that the expression at a handle names.
pub fn variable_at<'a, C: StatementContext>(
    context: &'a C,
    handle: Handle<key::Expression>,
) -> Option<&'a GlobalVariable>
    ensures { option_map (λ found. global_view found.now) result ≡ variable_at (C.seen context.now).m (C.seen context.now).f handle }
{
    let expression = context.expression_at(handle)?;
    let variable = global_of(expression)?;
    context.global_at(variable)
}

/// The global variable that the access at a handle is directly on.
pub fn accessed_at<'a, C: StatementContext>(
    context: &'a C,
    handle: Handle<key::Expression>,
) -> Option<&'a GlobalVariable>
    ensures { option_map (λ found. global_view found.now) result ≡ accessed_at (C.seen context.now).m (C.seen context.now).f handle }
{
    let base = base_at(context, handle)?;
    variable_at(context, base)
}

/// The global variable that the expression at a handle names, or is an access directly on.
pub fn named_at<'a, C: StatementContext>(
    context: &'a C,
    handle: Handle<key::Expression>,
) -> Option<&'a GlobalVariable>
    ensures { option_map (λ found. global_view found.now) result
        ≡ option_or (variable_at (C.seen context.now).m (C.seen context.now).f handle) (accessed_at (C.seen context.now).m (C.seen context.now).f handle) }
{
    match variable_at(context, handle) {
        Some(variable) => Some(variable),
        None => accessed_at(context, handle),
    }
}
