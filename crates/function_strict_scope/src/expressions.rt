//! The operands of expressions.

ghost use Rattle.std.specs.Prelude.{◌≡◌, ◌++◌, OnOk, slice_get};
ghost use Rattle.ir_types.specs.judged.ExpressionPlain.{expression_view};
ghost use Rattle.ir_items.specs.found.View.{function_view};
ghost use Rattle.spec_expressions.specs.judged.ExpressionNames.{expression_operands};
ghost use Rattle.spec_expressions.specs.judged.Operands.{these, handles_of};
ghost use Rattle.function_strict_scope.specs.Tables.{operands_given};

use ir_arena::handle::Handle;
use ir_items::{Expression, Function, key};
use spec_expressions::{Scoping, Slot};
use std::alloc::AllocError;
use typing_references::{OperandUser, with_operands};

// Appends these to a list.
fn add_all(
    list: &mut Vec<Handle<key::Expression>>,
    handles: &[Handle<key::Expression>],
) -> Result<(), AllocError>
    ensures { OnOk result (list.new.items ≡ list.old.items ++ handles.now) }
{
    for handle in handles {
        list.push(*handle)?;
    }
    Ok(())
}

// Appends those of these that are present.
fn add_slots(list: &mut Vec<Handle<key::Expression>>, slots: &[Slot]) -> Result<(), AllocError>
    ensures { OnOk result (list.new.items ≡ list.old.items ++ handles_of (these slots.now)) }
{
    for slot in slots {
        if let Some(handle) = slot.handle {
            list.push(handle)?;
        }
    }
    Ok(())
}

// Adds operands to a list.
#[derive(Drop)]
struct Adder;

impl OperandUser<Vec<Handle<key::Expression>>, Result<(), AllocError>> for Adder {
    ghost use Rattle.std.specs.Prelude.{◌≡◌, ◌++◌, OnOk};
    ghost use Rattle.spec_expressions.specs.judged.Operands.{handles_of};

    ghost does = { λ adder before after added operands. OnOk added (after.items ≡ before.items ++ handles_of operands) };

    fn take_slots(
        &self,
        state: &mut Vec<Handle<key::Expression>>,
        slots: &[Slot],
    ) -> Result<(), AllocError> {
        add_slots(state, slots)
    }

    fn take_list(
        &self,
        state: &mut Vec<Handle<key::Expression>>,
        scoping: Scoping,
        handles: &[Handle<key::Expression>],
    ) -> Result<(), AllocError> {
        add_all(state, handles)
    }
}

// Adds the operands of an expression.
fn add_operands(
    list: &mut Vec<Handle<key::Expression>>,
    expression: &Expression,
) -> Result<(), AllocError>
    ensures { OnOk result (list.new.items ≡ list.old.items ++ expression_operands (expression_view expression.now)) }
{
    let adder = Adder;
    with_operands(&adder, list, expression)
}

/// Puts the operands of the expression at a handle into a list, in order, in place of what is there. The error is out of memory.
#[tactic(auto, using(typing_references::proofs::Entries::entries))]
pub fn list_operands(
    list: &mut Vec<Handle<key::Expression>>,
    function: &Function,
    handle: Handle<key::Expression>,
) -> Result<(), AllocError>
    ensures { OnOk result (list.new.items ≡ operands_given (slice_get (function_view function.now).expressions handle)) }
{
    list.clear();
    match function.expressions.try_get(handle) {
        Ok(expression) => add_operands(list, expression),
        Err(_) => Ok(()),
    }
}
