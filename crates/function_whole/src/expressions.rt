//! The checks of a function's expressions.

ghost use Rattle.std.specs.Prelude.{MatchResult, length, map};
ghost use Rattle.function_whole.specs.Faults.{IsExpressionFault};
ghost use Rattle.function_whole.specs.Judged.{AcceptedBelow};
ghost use Rattle.function_interface.specs.Question.{question};
ghost use Rattle.function_statement_checks.specs.View.{context_view, IsKnown};

use bitflags::Flags;
use function_interface::Lower;
use function_statement_checks::BlockContext;
use ir_arena::handle::Handle;
use ir_flags::ShaderStages;
use typing_errors::FunctionError;

/// Whether all expressions of the context's function are valid, and which stages may run them all.
///
/// # Errors
///
/// [`FunctionError::Expression`] for the first invalid one.
pub(crate) fn check_expressions<L: Lower>(
    lower: &L,
    context: &BlockContext<'_>,
    callees: &[L::Info],
) -> Result<ShaderStages, FunctionError>
    requires made { L.is_for lower.now (context_view context.now).m }
    requires known { IsKnown context.now }
    ensures { let q = question (context_view context.now).m (context_view context.now).f (map (L.summary lower.now) callees.now) (map (L.noted lower.now) callees.now) in
        MatchResult result
        (AcceptedBelow (L.reading lower.now q) (context_view context.now) (length (context_view context.now).f.expressions))
        (IsExpressionFault (L.reading lower.now q) (L.faults lower.now q) (context_view context.now)) }
{
    let mut stages = ShaderStages::all();
    for index in 0..context.function.expressions.len() {
        let handle = Handle::at(index);
        match lower.check_expression(context, handle, callees) {
            Ok(own) => stages = ShaderStages(stages.0 & own.0),
            Err(source) => return Err(FunctionError::Expression { handle, source }),
        }
    }
    Ok(stages)
}
