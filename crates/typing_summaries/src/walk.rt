//! The effects of a body's statements, in program order.

ghost use Rattle.std.specs.Prelude.{◌≡◌, map, OnOk, slice_get};
ghost use Rattle.ir_blocks.specs.found.View.{statement_view, block_view, case_view, cases_of};
ghost use Rattle.typing_summaries.specs.Joined.{AreJoined};
ghost use Rattle.typing_summaries.specs.Tallies.{Known, known, tallied, join_summary, leave, statement_done, done_in, done_inside, done_in_cases};

use crate::joined::{Joined, join_pairs};
use crate::tally::{Context, Tally};
use ir_arena::handle::Handle;
use ir_blocks::{Block, Statement, SwitchCase, plain_operation};
use ir_types::key;
use std::alloc::AllocError;

impl Tally {
    // Adds the info of a callee, with these arguments.
    fn join(
        &mut self,
        context: &Context<'_>,
        callee: Handle<key::Function>,
        arguments: &[Handle<key::Expression>],
        joined: &mut Joined,
    ) -> Result<(), AllocError>
        requires { AreJoined (known context.now) joined.old.passed.items (tallied self.old).paired.pairs }
        ensures tally { OnOk result (tallied self.new
            ≡ join_summary (known context.now) arguments.now (slice_get (known context.now).summaries callee) (tallied self.old)) }
        ensures joined { OnOk result (AreJoined (known context.now) joined.new.passed.items (tallied self.new).paired.pairs) }
    {
        match context.callees.get(callee.index()) {
            Some(info) => {
                self.counts.merge(info.uses());
                self.may_kill = self.may_kill || info.may_kill;
                join_pairs(
                    &mut self.sampled,
                    joined,
                    context,
                    callee.index(),
                    arguments,
                    info.sampled(),
                )
            }
            None => Ok(()),
        }
    }

    // Adds a discard or a call.
    fn leave(
        &mut self,
        context: &Context<'_>,
        statement: &Statement,
        joined: &mut Joined,
    ) -> Result<(), AllocError>
        requires { AreJoined (known context.now) joined.old.passed.items (tallied self.old).paired.pairs }
        ensures tally { OnOk result (tallied self.new ≡ leave (known context.now) (statement_view statement.now) (tallied self.old)) }
        ensures joined { OnOk result (AreJoined (known context.now) joined.new.passed.items (tallied self.new).paired.pairs) }
    {
        match statement {
            Statement::Kill => {
                self.may_kill = true;
                Ok(())
            }
            Statement::Call {
                function,
                arguments,
                ..
            } => self.join(context, *function, arguments, joined),
            Statement::Emit(_)
            | Statement::Block(_)
            | Statement::If { .. }
            | Statement::Switch { .. }
            | Statement::Loop { .. }
            | Statement::Break
            | Statement::Continue
            | Statement::Return { .. }
            | plain_operation!() => Ok(()),
        }
    }

    // Adds the statement itself, without its nested statements.
    fn add_statement(
        &mut self,
        context: &Context<'_>,
        statement: &Statement,
        joined: &mut Joined,
    ) -> Result<(), AllocError>
        requires { AreJoined (known context.now) joined.old.passed.items (tallied self.old).paired.pairs }
        ensures tally { OnOk result (tallied self.new ≡ statement_done (known context.now) (statement_view statement.now) (tallied self.old)) }
        ensures joined { OnOk result (AreJoined (known context.now) joined.new.passed.items (tallied self.new).paired.pairs) }
    {
        self.counts.take_statement(context.globals, statement);
        self.leave(context, statement, joined)
    }

    /// Adds all statements of a block, at any depth. The error is out of memory.
    pub fn add_block(&mut self, context: &Context<'_>, block: &Block) -> Result<(), AllocError>
        ensures { OnOk result (tallied self.new ≡ done_in (known context.now) (block_view block.now) (tallied self.old)) }
    {
        let mut joined = Joined::new(self.counts.allocator());
        self.add_all(context, block, &mut joined)
    }

    // As above, given the callees merged so far.
    #[cycle(walk)]
    fn add_all(
        &mut self,
        context: &Context<'_>,
        block: &Block,
        joined: &mut Joined,
    ) -> Result<(), AllocError>
        requires { AreJoined (known context.now) joined.old.passed.items (tallied self.old).paired.pairs }
        ensures tally { OnOk result (tallied self.new ≡ done_in (known context.now) (block_view block.now) (tallied self.old)) }
        ensures joined { OnOk result (AreJoined (known context.now) joined.new.passed.items (tallied self.new).paired.pairs) }
    {
        for statement in block.as_slice() {
            self.add_statement(context, statement, joined)?;
            self.add_inside(context, statement, joined)?;
        }
        Ok(())
    }

    #[cycle(walk)]
    fn add_inside(
        &mut self,
        context: &Context<'_>,
        statement: &Statement,
        joined: &mut Joined,
    ) -> Result<(), AllocError>
        requires { AreJoined (known context.now) joined.old.passed.items (tallied self.old).paired.pairs }
        ensures tally { OnOk result (tallied self.new ≡ done_inside (known context.now) (statement_view statement.now) (tallied self.old)) }
        ensures joined { OnOk result (AreJoined (known context.now) joined.new.passed.items (tallied self.new).paired.pairs) }
    {
        match statement {
            Statement::Block(block) => self.add_all(context, block, joined),
            Statement::If { accept, reject, .. } => {
                self.add_all(context, accept, joined)?;
                self.add_all(context, reject, joined)
            }
            Statement::Switch { cases, .. } => self.add_cases(context, cases, joined),
            Statement::Loop {
                body,
                continuing,
                ..
            } => {
                self.add_all(context, body, joined)?;
                self.add_all(context, continuing, joined)
            }
            Statement::Emit(_)
            | Statement::Break
            | Statement::Continue
            | Statement::Return { .. }
            | Statement::Kill
            | Statement::Call { .. }
            | plain_operation!() => Ok(()),
        }
    }

    #[cycle(walk)]
    fn add_cases(
        &mut self,
        context: &Context<'_>,
        cases: &[SwitchCase],
        joined: &mut Joined,
    ) -> Result<(), AllocError>
        requires { AreJoined (known context.now) joined.old.passed.items (tallied self.old).paired.pairs }
        ensures tally { OnOk result (tallied self.new ≡ done_in_cases (known context.now) (cases_of (map case_view cases.now)) (tallied self.old)) }
        ensures joined { OnOk result (AreJoined (known context.now) joined.new.passed.items (tallied self.new).paired.pairs) }
    {
        for case in cases {
            self.add_all(context, &case.body, joined)?;
        }
        Ok(())
    }
}
