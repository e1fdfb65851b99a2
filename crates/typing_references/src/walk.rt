//! A search of the statements of a body for the first match.

ghost use Rattle.std.specs.Prelude.{◌≡◌, Option, map};
ghost use Rattle.ir_blocks.specs.judged.Plain.{PlainStatement};
ghost use Rattle.ir_blocks.specs.found.View.{statement_view, block_view, case_view, cases_of};
ghost use Rattle.typing_references.specs.First.{first_in, first_at, first_in_cases};

use ir_blocks::plain_operation;
use ir_items::{Block, Statement, SwitchCase};

/// A search of one statement, without its nested statements.
pub trait StatementLook<F> {
    ghost look: { Self → PlainStatement → Option F };

    /// The match, if there is one.
    fn look(&self, statement: &Statement) -> Option<F>
        ensures { result ≡ look self.now (statement_view statement.now) };
}

/// The first match in a block, at any depth.
#[cycle(walk)]
pub fn first_in<F, T: StatementLook<F>>(looked: &T, block: &Block) -> Option<F>
    ensures { result ≡ first_in (T.look looked.now) (block_view block.now) }
{
    for statement in block.as_slice() {
        if let Some(found) = first_at(looked, statement) {
            return Some(found);
        }
    }
    None
}

#[cycle(walk)]
fn first_at<F, T: StatementLook<F>>(looked: &T, statement: &Statement) -> Option<F>
    ensures { result ≡ first_at (T.look looked.now) (statement_view statement.now) }
{
    if let Some(found) = looked.look(statement) {
        return Some(found);
    }
    match statement {
        Statement::Block(block) => first_in(looked, block),
        Statement::If { accept, reject, .. } => {
            if let Some(found) = first_in(looked, accept) {
                return Some(found);
            }
            first_in(looked, reject)
        }
        Statement::Switch { cases, .. } => first_in_cases(looked, cases),
        Statement::Loop {
            body,
            continuing,
            ..
        } => {
            if let Some(found) = first_in(looked, body) {
                return Some(found);
            }
            first_in(looked, continuing)
        }
        Statement::Emit(_)
        | Statement::Break
        | Statement::Continue
        | Statement::Return { .. }
        | Statement::Kill
        | Statement::Call { .. }
        | plain_operation!() => None,
    }
}

#[cycle(walk)]
fn first_in_cases<F, T: StatementLook<F>>(looked: &T, cases: &[SwitchCase]) -> Option<F>
    ensures { result ≡ first_in_cases (T.look looked.now) (cases_of (map case_view cases.now)) }
{
    for case in cases {
        if let Some(found) = first_in(looked, &case.body) {
            return Some(found);
        }
    }
    None
}
