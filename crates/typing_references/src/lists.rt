//! Operands that do not come before a bound.

ghost use Rattle.std.specs.Prelude.{◌≡◌};
ghost use Rattle.ir_types.specs.judged.ExpressionPlain.{expression_view};
ghost use Rattle.ir_blocks.specs.found.View.{statement_view};
ghost use Rattle.typing_references.specs.First.{first_past};
ghost use Rattle.spec_expressions.specs.judged.ExpressionNames.{expression_operands};
ghost use Rattle.spec_expressions.specs.judged.Operands.{these, handles_of};
ghost use Rattle.spec_expressions.specs.judged.StatementNames.{statement_operands};

use crate::operands::{OperandUser, with_operands, with_statement_operands};
use ir_arena::handle::Handle;
use ir_items::Statement;
use ir_types::{Expression, key};
use spec_expressions::{Scoping, Slot};

// The first of these handles that does not come before the bound.
fn first_past(handles: &[Handle<key::Expression>], end: usize) -> Option<Handle<key::Expression>>
    ensures { result ≡ first_past end handles.now }
{
    for handle in handles {
        if handle.index() >= end {
            return Some(*handle);
        }
    }
    None
}

// The first of these optional handles that does not come before the bound.
fn given_past(slots: &[Slot], end: usize) -> Option<Handle<key::Expression>>
    ensures { result ≡ first_past end (handles_of (these slots.now)) }
{
    for slot in slots {
        if let Some(handle) = slot.handle {
            if handle.index() >= end {
                return Some(handle);
            }
        }
    }
    None
}

// Searches for an operand that does not come before the bound.
#[derive(Drop)]
struct Past {
    end: usize,
}

impl OperandUser<(), Option<Handle<key::Expression>>> for Past {
    ghost use Rattle.std.specs.Prelude.{◌≡◌};
    ghost use Rattle.typing_references.specs.First.{first_past};
    ghost use Rattle.spec_expressions.specs.judged.Operands.{handles_of};

    ghost does = { λ past before after found operands. found ≡ first_past past.end (handles_of operands) };

    fn take_slots(&self, state: &mut (), slots: &[Slot]) -> Option<Handle<key::Expression>> {
        given_past(slots, self.end)
    }

    fn take_list(
        &self,
        state: &mut (),
        scoping: Scoping,
        handles: &[Handle<key::Expression>],
    ) -> Option<Handle<key::Expression>> {
        first_past(handles, self.end)
    }
}

/// The first operand of an expression that does not come before the bound.
pub fn operand_past(expression: &Expression, end: usize) -> Option<Handle<key::Expression>>
    ensures { result ≡ first_past end (expression_operands (expression_view expression.now)) }
{
    let past = Past { end };
    with_operands(&past, &mut (), expression)
}

/// The first operand of a statement that does not come before the bound. Operands of nested statements are not its own.
pub fn statement_operand_past(statement: &Statement, end: usize) -> Option<Handle<key::Expression>>
    ensures { result ≡ first_past end (statement_operands (statement_view statement.now)) }
{
    let past = Past { end };
    with_statement_operands(&past, &mut (), statement)
}
