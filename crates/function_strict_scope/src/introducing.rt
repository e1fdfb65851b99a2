//! The expressions that statements introduce into scope.

ghost use Rattle.std.specs.Prelude.{◌≡◌, ◌∷◌, ◌++◌, [], true, false, All, IfErr, IfOk, OnOk, slice_get};
ghost use Rattle.ir_arena.specs.judged.Handles.{handles_between};
ghost use Rattle.ir_blocks.specs.found.View.{statement_view};
ghost use Rattle.ir_items.specs.judged.Plain.{PlainFunction};
ghost use Rattle.ir_items.specs.found.View.{function_view};
ghost use Rattle.function_body_checks.specs.Carried.{Known, known, first_lacking};
ghost use Rattle.spec_statements.specs.judged.Tables.{introduced};
ghost use Rattle.function_strict_scope.specs.Live.{Follows};
ghost use Rattle.function_strict_scope.specs.Tables.{operands_given};
ghost use Rattle.function_strict_scope.specs.Walked.{IfFault, EachKnown, IsFaultOfNew, emitted_by};

use crate::error::StrictError;
use crate::expressions::list_operands;
use crate::live::{LiveOperands, bring, has_all};
use function_body_checks::{ExpressionList, is_known};
use ir_arena::handle::Handle;
use ir_arena::range::Range;
use ir_items::{Function, Statement, key};
use std::alloc::{AllocError, Global};
use typing_references::{range_of, result_of};

// Introduces an expression last.
fn add(sure: &mut ExpressionList, handle: Handle<key::Expression>) -> Result<(), StrictError>
    ensures added { OnOk result (sure.new ≡ sure.old ++ handle ∷ []) }
    ensures fault { IfErr result (λ r. IfFault r (λ e. (f : PlainFunction) → IsFaultOfNew f sure.old [] (handle ∷ []) e)) }
{
    if sure.insert(handle)? {
        Ok(())
    } else {
        Err(StrictError::Known(handle))
    }
}

// The first of these handles that is not in scope.
fn first_of(
    function: &Function,
    sure: &ExpressionList,
    handles: &[Handle<key::Expression>],
) -> Option<Handle<key::Expression>>
    ensures { result ≡ first_lacking (known (function_view function.now) sure.now) handles.now }
{
    for handle in handles {
        if !is_known(function, sure, *handle) {
            return Some(*handle);
        }
    }
    None
}

// Whether the operands of an expression are in scope.
#[tactic(auto, using(function_body_checks::proofs::Tables::all_known, function_body_checks::proofs::Tables::not_known))]
fn check_operands(
    function: &Function,
    sure: &ExpressionList,
    room: &mut Vec<Handle<key::Expression>>,
    handle: Handle<key::Expression>,
) -> Result<(), StrictError>
    ensures known { OnOk result (All (Known (function_view function.now) sure.now) (operands_given (slice_get (function_view function.now).expressions handle))) }
    ensures fault { IfErr result (λ r. IfFault r (IsFaultOfNew (function_view function.now) sure.now (handle ∷ []) (handle ∷ []))) }
{
    list_operands(room, function, handle)?;
    match first_of(function, sure, room) {
        Some(operand) => Err(StrictError::Unknown(operand)),
        None => Ok(()),
    }
}

// Emits a range: checks that each expression's operands are in scope, and introduces it.
fn emit_each(
    function: &Function,
    sure: &mut ExpressionList,
    alloc: Global,
    range: Range<key::Expression>,
) -> Result<(), StrictError>
    ensures known { OnOk result (EachKnown (function_view function.now) sure.old (handles_between range)) }
    ensures added { OnOk result (sure.new ≡ sure.old ++ handles_between range) }
    ensures fault { IfErr result (λ r. IfFault r (IsFaultOfNew (function_view function.now) sure.old (handles_between range) (handles_between range))) }
{
    let mut room = Vec::new(alloc);
    for handle in range {
        check_operands(function, sure, &mut room, handle)?;
        add(sure, handle)?;
    }
    Ok(())
}

// Emits a range at once if the index shows that its operands are in scope, and returns whether it did.
fn emit_whole(
    sure: &mut ExpressionList,
    live: &LiveOperands,
    range: Range<key::Expression>,
) -> Result<bool, AllocError>
    ensures known { IfOk result (λ b. b ≡ true → (f : PlainFunction) → Follows f live.now sure.old → EachKnown f sure.old (handles_between range)) }
    ensures added { IfOk result (λ b. b ≡ true → sure.new ≡ sure.old ++ handles_between range) }
    ensures same { IfOk result (λ b. b ≡ false → sure.new ≡ sure.old) }
{
    if !has_all(live, range) {
        return Ok(false);
    }
    sure.insert_range(range)
}

// Emits a range, expression by expression only if the index does not decide it.
fn emit_range(
    function: &Function,
    sure: &mut ExpressionList,
    live: &mut LiveOperands,
    range: Range<key::Expression>,
) -> Result<(), StrictError>
    requires { Follows (function_view function.now) live.old sure.old }
    ensures known { OnOk result (EachKnown (function_view function.now) sure.old (handles_between range)) }
    ensures added { OnOk result (sure.new ≡ sure.old ++ handles_between range) }
    ensures live { OnOk result (Follows (function_view function.now) live.new sure.new) }
    ensures fault { IfErr result (λ r. IfFault r (IsFaultOfNew (function_view function.now) sure.old (handles_between range) (handles_between range))) }
{
    if emit_whole(sure, live, range)? {
        bring(live, range);
        return Ok(());
    }
    emit_each(function, sure, live.alloc, range)?;
    bring(live, range);
    Ok(())
}

// Introduces the result of a statement.
fn add_result(
    sure: &mut ExpressionList,
    live: &mut LiveOperands,
    handle: Handle<key::Expression>,
) -> Result<(), StrictError>
    ensures added { OnOk result (sure.new ≡ sure.old ++ handle ∷ []) }
    ensures live { OnOk result ((f : PlainFunction) → Follows f live.old sure.old → Follows f live.new sure.new) }
    ensures fault { IfErr result (λ r. IfFault r (λ e. (f : PlainFunction) → IsFaultOfNew f sure.old [] (handle ∷ []) e)) }
{
    add(sure, handle)?;
    bring(live, Range::new_from_bounds(handle, handle));
    Ok(())
}

/// Introduces what a statement itself introduces, without its inner blocks, and checks the operands of what it emits.
pub fn introduce(
    function: &Function,
    sure: &mut ExpressionList,
    live: &mut LiveOperands,
    statement: &Statement,
) -> Result<(), StrictError>
    requires { Follows (function_view function.now) live.old sure.old }
    ensures known { OnOk result (EachKnown (function_view function.now) sure.old (emitted_by (statement_view statement.now))) }
    ensures added { OnOk result (sure.new ≡ sure.old ++ introduced (statement_view statement.now)) }
    ensures live { OnOk result (Follows (function_view function.now) live.new sure.new) }
    ensures fault { IfErr result (λ r. IfFault r (IsFaultOfNew (function_view function.now) sure.old (emitted_by (statement_view statement.now)) (introduced (statement_view statement.now)))) }
{
    if let Some(range) = range_of(statement) {
        return emit_range(function, sure, live, range);
    }
    match result_of(statement) {
        Some(handle) => add_result(sure, live, handle),
        None => Ok(()),
    }
}
