//! The statements of a function's body.

ghost use Rattle.std.specs.Prelude.{MatchResult};
ghost use Rattle.ir_blocks.specs.judged.Places.{Place, OccursAt};
ghost use Rattle.ir_blocks.specs.judged.Plain.{PlainStatement};
ghost use Rattle.ir_items.specs.judged.Bases.{BasesPrecede};
ghost use Rattle.ir_places.specs.Paths.{IsPlaced};
ghost use Rattle.spec_expressions.specs.judged.CallArities.{AritiesMatch};
ghost use Rattle.spec_statements.specs.judged.Statements.{StatementOK};
ghost use Rattle.function_statements.specs.Faults.{IsBodyRefusalAt};

use crate::error::StatementError;
use crate::rules::Rules;
use function_statement_checks::StatementContext;
use ir_places::{Trail, check_each};
use ir_types::refusal::Refusal;
use ir_types::with_span::WithSpan;
use std::alloc::Global;
use typing_errors::FunctionError;

/// Whether each statement of the context's function, at any depth, meets its rule (a part of naga's `validate_block_impl`).
/// Scope and control flow are not part of it. Requires that the base of each access precedes it, that the callees exist, and
/// that the context has the expression kinds of all constants.
///
/// # Errors
///
/// [`Refusal::Fault`] with an error of a statement at the place of the trail, from its check: the first in text order, which no
/// clause states. [`Refusal::Memory`] if out of memory.
pub fn validate_statements<C: StatementContext>(
    alloc: Global,
    trail: &mut Trail,
    context: &C,
) -> Result<(), Refusal<FunctionError>>
    requires known { C.known context.now }
    requires precede { BasesPrecede (C.seen context.now).f.expressions }
    requires arities { AritiesMatch (C.seen context.now).m (C.seen context.now).f }
    ensures { MatchResult result
        (λ _. (p : Place) (u : PlainStatement) → OccursAt (C.seen context.now).f.body p u → StatementOK (C.seen context.now) u)
        (λ r. IsPlaced trail.new (IsBodyRefusalAt (C.seen context.now) r)) }
{
    let rules = Rules { alloc, context };
    match check_each(trail, &rules, context.body()) {
        Ok(()) => Ok(()),
        Err(StatementError::Memory(error)) => Err(Refusal::Memory(error)),
        Err(StatementError::Fault(error)) => Err(Refusal::Fault(WithSpan::new(alloc, error))),
    }
}
