// Whether a statement ends its block, or control continues after it.
ghost use Rattle.std.specs.Prelude.{◌≡◌};
ghost use Rattle.ir_blocks.specs.judged.Shapes.{shape_of};
ghost use Rattle.ir_blocks.specs.judged.Tails.{goes_on};
ghost use Rattle.ir_blocks.specs.found.View.{statement_view};

use crate::plain_operation;
use crate::statements::Statement;

// Whether control continues after the statement.
pub(crate) fn goes_on(statement: &Statement) -> bool
    ensures { result ≡ goes_on (shape_of (statement_view statement.now)) }
{
    match statement {
        Statement::Block(_) | Statement::If { .. } | Statement::Switch { .. } => false,
        Statement::Break | Statement::Continue | Statement::Return { .. } | Statement::Kill => {
            false
        }
        Statement::Emit(_) | Statement::Loop { .. } | Statement::Call { .. } | plain_operation!() =>
            true,
    }
}
