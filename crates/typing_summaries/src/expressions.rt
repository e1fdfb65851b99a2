//! The effects of expressions, and of the global variables that they refer to.

ghost use Rattle.std.specs.Prelude.{◌≡◌, map, OnOk};
ghost use Rattle.ir_types.specs.judged.ExpressionPlain.{expression_view};
ghost use Rattle.ir_arena.specs.judged.Handles.{handles_from};
ghost use Rattle.ir_items.specs.found.GlobalView.{values_of};
ghost use Rattle.typing_summaries.specs.Tallies.{known, counted, tallied, expression_done, expressions_done, expressions_done_with, name_one, name_all, name_all_with};

use crate::Expressions;
use crate::counts::{Counts, name};
use crate::tally::{Context, Tally};
use ir_arena::handle::Handle;
use ir_types::{Expression, key};
use std::alloc::AllocError;

impl Tally {
    fn add_expression(
        &mut self,
        context: &Context<'_>,
        handle: Handle<key::Expression>,
        expression: &Expression,
    ) -> Result<(), AllocError>
        ensures { OnOk result (tallied self.new ≡ expression_done (known context.now) handle (expression_view expression.now) (tallied self.old)) }
    {
        self.counts.take_expression(context.globals, expression);
        self.sampled.sample(context.expressions, handle, expression)
    }

    /// Adds all expressions of the function. The error is out of memory.
    #[tactic(auto, using(crate::proofs::Handles::expressions_with))]
    pub fn add_expressions(&mut self, context: &Context<'_>) -> Result<(), AllocError>
        ensures { OnOk result (tallied self.new ≡ expressions_done (known context.now) 0 (known context.now).expressions (tallied self.old)) }
    {
        self.add_with_handles(context)
    }

    fn add_with_handles(&mut self, context: &Context<'_>) -> Result<(), AllocError>
        ensures { OnOk result (tallied self.new ≡ expressions_done_with (known context.now) (handles_from 0 context.now.expressions.now) (tallied self.old)) }
    {
        for (handle, expression) in context.expressions.iter() {
            self.add_expression(context, handle, expression)?;
        }
        Ok(())
    }
}

impl Counts {
    fn name_expression(&mut self, expression: &Expression)
        ensures uses { self.new.uses.items ≡ name_one (expression_view expression.now) self.old.uses.items }
        ensures counts { self.new.counts ≡ self.old.counts }
    {
        if let Expression::GlobalVariable(global) = *expression {
            name(&mut self.uses, global);
        }
    }

    /// Adds `QUERY` to each global variable that an expression refers to and that has no use.
    #[tactic(auto, using(crate::proofs::Handles::names_with))]
    pub fn name_globals(&mut self, expressions: &Expressions)
        ensures uses { self.new.uses.items ≡ name_all (map expression_view (values_of expressions.now)) self.old.uses.items }
        ensures counts { self.new.counts ≡ self.old.counts }
    {
        self.name_with_handles(expressions);
    }

    fn name_with_handles(&mut self, expressions: &Expressions)
        ensures uses { self.new.uses.items ≡ name_all_with (handles_from 0 expressions.now) self.old.uses.items }
        ensures counts { self.new.counts ≡ self.old.counts }
    {
        for (_, expression) in expressions.iter() {
            self.name_expression(expression);
        }
    }
}
