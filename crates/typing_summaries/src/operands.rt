//! Counts of the operands of expressions and of statements.

ghost use Rattle.std.specs.Prelude.{◌≡◌};
ghost use Rattle.ir_types.specs.judged.ExpressionPlain.{expression_view};
ghost use Rattle.ir_blocks.specs.found.View.{statement_view};
ghost use Rattle.spec_expressions.specs.judged.OperandUses.{operand, operands_in, expression_uses, statement_uses};
ghost use Rattle.spec_expressions.specs.judged.Operands.{these};
ghost use Rattle.typing_summaries.specs.Tallies.{counted, take_one, take_all};

use crate::counts::{Counts, Start};
use ir_arena::handle::Handle;
use ir_blocks::Statement;
use ir_types::{Expression, key};
use spec_expressions::{GlobalUse, Scoping, Slot, Usage};
use typing_references::{OperandUser, with_operands, with_statement_operands};

// A visitor that counts operands.
#[derive(Drop)]
struct Counter<'a> {
    globals: &'a [Start],
}

impl OperandUser<Counts, ()> for Counter<'_> {
    ghost use Rattle.std.specs.Prelude.{◌≡◌};
    ghost use Rattle.spec_expressions.specs.judged.OperandUses.{operands_in};
    ghost use Rattle.typing_summaries.specs.Tallies.{counted, take_all};

    ghost does = { λ counter before after answer operands. counted after ≡ take_all counter.globals.now (operands_in operands) (counted before) };

    fn take_slots(&self, state: &mut Counts, slots: &[Slot]) {
        state.take_slots(self.globals, slots);
    }

    fn take_list(&self, state: &mut Counts, scoping: Scoping, handles: &[Handle<key::Expression>]) {
        state.read_all(self.globals, handles);
    }
}

impl Counts {
    // One operand with this use.
    fn take_used(&mut self, globals: &[Start], handle: Handle<key::Expression>, usage: Usage)
        ensures { counted self.new ≡ take_one globals.now (operand usage handle) (counted self.old) }
    {
        match usage {
            Usage::Base => self.take(globals, handle, GlobalUse(0)),
            Usage::Read => self.take(globals, handle, GlobalUse::READ),
            Usage::Write => self.take(globals, handle, GlobalUse::WRITE),
            Usage::ReadWrite => {
                let both = GlobalUse(GlobalUse::READ.0 | GlobalUse::WRITE.0);
                self.take(globals, handle, both);
            }
            Usage::Query => self.take(globals, handle, GlobalUse::QUERY),
            Usage::Atomic => self.take(globals, handle, GlobalUse::ATOMIC),
        }
    }

    fn take_slots(&mut self, globals: &[Start], slots: &[Slot])
        ensures { counted self.new ≡ take_all globals.now (operands_in (these slots.now)) (counted self.old) }
    {
        for slot in slots {
            if let Some(handle) = slot.handle {
                self.take_used(globals, handle, slot.usage);
            }
        }
    }

    // The operands of an expression.
    pub(crate) fn take_expression(&mut self, globals: &[Start], expression: &Expression)
        ensures { counted self.new ≡ take_all globals.now (expression_uses (expression_view expression.now)) (counted self.old) }
    {
        let counter = Counter { globals };
        with_operands(&counter, self, expression);
    }

    // The operands of a statement itself, without its nested statements.
    pub(crate) fn take_statement(&mut self, globals: &[Start], statement: &Statement)
        ensures { counted self.new ≡ take_all globals.now (statement_uses (statement_view statement.now)) (counted self.old) }
    {
        let counter = Counter { globals };
        with_statement_operands(&counter, self, statement);
    }
}
