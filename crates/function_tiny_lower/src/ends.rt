//! Whether a function may execute `Kill`.

ghost use Rattle.std.specs.Prelude.{◌≡◌, is_some, map, slice_get};
ghost use Rattle.ir_items.specs.found.View.{function_view};
ghost use Rattle.typing_references.specs.First.{first_in};
ghost use Rattle.function_tiny_lower.specs.Ends.{ends_in, may_end, summary_of};

use crate::tiny::TinyInfo;
use ir_arena::handle::Handle;
use ir_blocks::plain_operation;
use ir_items::{Function, Statement};
use ir_types::key;
use typing_references::{StatementLook, first_in};

// Whether a callee may.
fn may_end(callees: &[TinyInfo], function: Handle<key::Function>) -> bool
    ensures { result ≡ may_end (slice_get (map summary_of callees.now) function) }
{
    match callees.get(function.index()) {
        Some(info) => info.may_kill,
        None => false,
    }
}

// Statements that execute `Kill`, directly or in a callee.
#[derive(Drop)]
struct Ends<'a> {
    callees: &'a [TinyInfo],
}

impl StatementLook<()> for Ends<'_> {
    ghost use Rattle.std.specs.Prelude.{map};
    ghost use Rattle.function_tiny_lower.specs.Ends.{ends_in, summary_of};

    ghost look = { λ t s. ends_in (map summary_of t.callees.now) s };

    fn look(&self, statement: &Statement) -> Option<()> {
        match statement {
            Statement::Kill => Some(()),
            Statement::Call { function, .. } => {
                if may_end(self.callees, *function) {
                    Some(())
                } else {
                    None
                }
            }
            Statement::Emit(_)
            | Statement::Block(_)
            | Statement::If { .. }
            | Statement::Switch { .. }
            | Statement::Loop { .. }
            | Statement::Break
            | Statement::Continue
            | Statement::Return { .. }
            | plain_operation!() => None,
        }
    }
}

/// Whether a function may, given the information on its callees.
pub(crate) fn may_kill(function: &Function, callees: &[TinyInfo]) -> bool
    ensures { result ≡ is_some (first_in (ends_in (map summary_of callees.now)) (function_view function.now).body) }
{
    let ends = Ends { callees };
    match first_in(&ends, &function.body) {
        Some(()) => true,
        None => false,
    }
}
