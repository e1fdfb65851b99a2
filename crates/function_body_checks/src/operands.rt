//! The operands of statements that must be in scope.

ghost use Rattle.std.specs.Prelude.{◌≡◌, slice_get};
ghost use Rattle.ir_blocks.specs.found.View.{statement_view};
ghost use Rattle.ir_types.specs.judged.ExpressionPlain.{expression_view};
ghost use Rattle.ir_items.specs.found.View.{function_view};
ghost use Rattle.function_body_checks.specs.Carried.{holds, pre_known, known, first_lacking, place_lacking};
ghost use Rattle.spec_expressions.specs.judged.Operands.{these, is_looked_up, looked_up};
ghost use Rattle.spec_expressions.specs.judged.Kinds.{statement_slots};
ghost use Rattle.spec_statements.specs.judged.Scope.{is_pre_emitted};

use crate::list::ExpressionList;
use ir_arena::handle::Handle;
use ir_items::{Expression, Function, Statement, key};
use spec_expressions::{Scoping, Slot};
use typing_references::{OperandUser, with_statement_operands};

// Whether an expression is in scope everywhere.
#[tactic(auto, using(crate::proofs::Lists::same_pre))]
fn is_pre_emitted(expression: &Expression) -> bool
    ensures { result ≡ is_pre_emitted (expression_view expression.now) }
{
    expression.needs_pre_emit()
}

/// The same for the expression at a handle.
#[tactic(auto, using(typing_references::proofs::Entries::entries))]
pub fn is_always_known(function: &Function, handle: Handle<key::Expression>) -> bool
    ensures { result ≡ pre_known (slice_get (function_view function.now).expressions handle) }
{
    match function.expressions.try_get(handle) {
        Ok(expression) => is_pre_emitted(expression),
        Err(_) => false,
    }
}

// Whether an expression is one of a list.
#[tactic(auto, using(crate::proofs::Lists::by_holds))]
fn is_held(scope: &ExpressionList, handle: Handle<key::Expression>) -> bool
    ensures { result ≡ holds scope.now handle }
{
    scope.contains(handle)
}

/// Whether an expression is in scope.
pub fn is_known(
    function: &Function,
    scope: &ExpressionList,
    handle: Handle<key::Expression>,
) -> bool
    ensures { result ≡ known (function_view function.now) scope.now handle }
{
    is_held(scope, handle) || is_always_known(function, handle)
}

// Whether an operand must be in scope, under strict scope or not.
fn is_looked_up(strict: bool, scoping: Scoping) -> bool
    ensures { result ≡ is_looked_up strict scoping }
{
    match scoping {
        Scoping::Always => true,
        Scoping::Strictly => strict,
        Scoping::Apart => false,
    }
}

// The first of these that is looked up, given and not in scope.
fn first_unknown(unknown: &Unknown<'_>, slots: &[Slot]) -> Option<Handle<key::Expression>>
    ensures { result ≡ first_lacking (known (function_view unknown.now.function.now) unknown.now.scope.now) (looked_up unknown.now.strict (these slots.now)) }
{
    for slot in slots {
        if is_looked_up(unknown.strict, slot.scoping) {
            if let Some(handle) = slot.handle {
                if !is_known(unknown.function, unknown.scope, handle) {
                    return Some(handle);
                }
            }
        }
    }
    None
}

// The first of these handles that is not in scope.
fn first_lacking(
    function: &Function,
    scope: &ExpressionList,
    handles: &[Handle<key::Expression>],
) -> Option<Handle<key::Expression>>
    ensures { result ≡ first_lacking (known (function_view function.now) scope.now) handles.now }
{
    for handle in handles {
        if !is_known(function, scope, *handle) {
            return Some(*handle);
        }
    }
    None
}

// Looks for an operand that is not in scope.
#[derive(Drop)]
struct Unknown<'a> {
    function: &'a Function,
    scope: &'a ExpressionList,
    strict: bool,
}

impl OperandUser<(), Option<Handle<key::Expression>>> for Unknown<'_> {
    ghost use Rattle.std.specs.Prelude.{◌≡◌};
    ghost use Rattle.ir_items.specs.found.View.{function_view};
    ghost use Rattle.function_body_checks.specs.Carried.{known, first_lacking};
    ghost use Rattle.spec_expressions.specs.judged.Operands.{looked_up};

    ghost does = { λ t before after found operands. found ≡ first_lacking (known (function_view t.function.now) t.scope.now) (looked_up t.strict operands) };

    fn take_slots(&self, state: &mut (), slots: &[Slot]) -> Option<Handle<key::Expression>> {
        first_unknown(self, slots)
    }

    fn take_list(
        &self,
        state: &mut (),
        scoping: Scoping,
        handles: &[Handle<key::Expression>],
    ) -> Option<Handle<key::Expression>> {
        if is_looked_up(self.strict, scoping) {
            first_lacking(self.function, self.scope, handles)
        } else {
            None
        }
    }
}

/// The first operand of a statement that must be in scope, strictly or not, and is not. The operands inside inner blocks, and a
/// loop's condition, are left out.
pub fn unknown_operand(
    function: &Function,
    scope: &ExpressionList,
    strict: bool,
    statement: &Statement,
) -> Option<Handle<key::Expression>>
    ensures { result ≡ first_lacking (known (function_view function.now) scope.now) (looked_up strict (statement_slots (statement_view statement.now))) }
{
    let unknown = Unknown {
        function,
        scope,
        strict,
    };
    with_statement_operands(&unknown, &mut (), statement)
}

/// The index of the first argument of a call that is not in scope.
pub fn unknown_place(
    function: &Function,
    scope: &ExpressionList,
    arguments: &[Handle<key::Expression>],
) -> Option<usize>
    ensures { result ≡ place_lacking (known (function_view function.now) scope.now) 0 arguments.now }
{
    for place in 0..arguments.len() {
        if !is_known(function, scope, arguments[place]) {
            return Some(place);
        }
    }
    None
}
