//! The rules of statements, as required of each statement of a body.

use crate::error::StatementError;
use crate::statement::check_own;
use function_statement_checks::StatementContext;
use ir_blocks::Statement;
use ir_places::StatementRule;
use std::alloc::Global;

/// The rule of each kind of statement, in a context.
#[derive(Drop)]
pub(crate) struct Rules<'a, C> {
    /// The allocator for the values of a switch.
    pub alloc: Global,
    /// The context.
    pub context: &'a C,
}

impl<'a, C: StatementContext> StatementRule<StatementError> for Rules<'a, C> {
    ghost use Rattle.ir_items.specs.judged.Bases.{BasesPrecede};
    ghost use Rattle.function_statements.specs.Bodies.{Meets, IsWrong};

    ghost fits = { λ r. C.known r.context.now × BasesPrecede (C.seen r.context.now).f.expressions };

    ghost meets = { λ r u. Meets (C.seen r.context.now) u };

    ghost wrong = { λ r e u. IsWrong (C.seen r.context.now) e u };

    fn check(&self, statement: &Statement) -> Result<(), StatementError> {
        check_own(self.alloc, self.context, statement)
    }
}
