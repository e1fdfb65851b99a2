//! The expressions that statements introduce into scope.

ghost use Rattle.std.specs.Prelude.{◌≡◌, ◌++◌, ℕ, Bool, List, All, Contains, IfErr, IfNone, IfOk, IfSome, OnOk, option_to_list};
ghost use Rattle.ir_arena.specs.judged.Handles.{handles_between};
ghost use Rattle.ir_blocks.specs.judged.Places.{statement as spot};
ghost use Rattle.ir_blocks.specs.found.View.{statement_view};
ghost use Rattle.ir_items.specs.judged.Plain.{PlainFunction};
ghost use Rattle.ir_items.specs.found.View.{function_view};
ghost use Rattle.function_body_checks.specs.Carried.{IfFault, IsBrought, IsFaultHere, AreBrought, Known};
ghost use Rattle.spec_statements.specs.judged.Tables.{introduced};

use crate::always::{Outline, has_always};
use crate::error::ScopeError;
use crate::list::ExpressionList;
use crate::operands::is_known;
use ir_arena::handle::Handle;
use ir_arena::range::Range;
use ir_items::{Function, Statement, key};
use std::alloc::AllocError;
use typing_references::{callee_of, range_of, result_of};

// Introduces an expression, and returns whether it was not in scope. The error is out of memory.
#[tactic(auto, using(crate::proofs::Tables::reported_known, crate::proofs::Tables::reported_unknown, crate::proofs::Tables::added_known))]
fn bring_one(
    function: &Function,
    scope: &mut ExpressionList,
    handle: Handle<key::Expression>,
) -> Result<bool, AllocError>
    ensures { IfOk result (IsBrought (function_view function.now) scope.old scope.new handle) }
{
    if is_known(function, scope, handle) {
        return Ok(false);
    }
    scope.insert(handle)
}

// The first expression of a range that is in scope.
fn first_known(
    function: &Function,
    scope: &ExpressionList,
    range: Range<key::Expression>,
) -> Option<Handle<key::Expression>>
    ensures none { IfNone result (All (λ e. ¬ Known (function_view function.now) scope.now e) (handles_between range)) }
    ensures some { IfSome result (λ e. Contains (handles_between range) e × Known (function_view function.now) scope.now e) }
{
    let bounds = range.index_range();
    for place in bounds.start..bounds.end {
        let handle = Handle::at(place as usize);
        if is_known(function, scope, handle) {
            return Some(handle);
        }
    }
    None
}

// Introduces a range, and returns the first of it that is already in scope: only then is the range walked. The error is out of memory.
fn bring_range(
    outline: &Outline<'_>,
    scope: &mut ExpressionList,
    range: Range<key::Expression>,
) -> Result<Option<Handle<key::Expression>>, AllocError>
    ensures { IfOk result (AreBrought (function_view outline.now.function.now) scope.old scope.new (handles_between range)) }
{
    if has_always(outline, range) {
        return Ok(first_known(outline.function, scope, range));
    }
    if scope.insert_range(range)? {
        return Ok(None);
    }
    Ok(first_known(outline.function, scope, range))
}

// Introduces the result expression of a statement, and returns whether it was already in scope.
fn bring_result(
    function: &Function,
    scope: &mut ExpressionList,
    result_handle: Option<Handle<key::Expression>>,
) -> Result<Option<Handle<key::Expression>>, AllocError>
    ensures { IfOk result (AreBrought (function_view function.now) scope.old scope.new (option_to_list result_handle)) }
{
    let Some(handle) = result_handle else {
        return Ok(None);
    };
    if bring_one(function, scope, handle)? {
        Ok(None)
    } else {
        Ok(Some(handle))
    }
}

// Introduces what a statement introduces, and returns the first that is already in scope. The error is out of memory.
#[tactic(auto, using(crate::proofs::Tables::emitted, crate::proofs::Tables::resulting))]
fn bring_all(
    outline: &Outline<'_>,
    scope: &mut ExpressionList,
    statement: &Statement,
) -> Result<Option<Handle<key::Expression>>, AllocError>
    ensures { IfOk result (AreBrought (function_view outline.now.function.now) scope.old scope.new (introduced (statement_view statement.now))) }
{
    match range_of(statement) {
        Some(range) => bring_range(outline, scope, range),
        None => bring_result(outline.function, scope, result_of(statement)),
    }
}

// The fault of an expression that is in scope already.
fn known_already(statement: &Statement, handle: Handle<key::Expression>) -> ScopeError
    ensures { (f : PlainFunction) (scope : List ℕ) → Contains (introduced (statement_view statement.now)) handle → Known f scope handle
        → IfFault result (λ e. (asked : Bool) (answered : List ℕ) → IsFaultHere f asked (spot (statement_view statement.now)) scope answered e) }
{
    match callee_of(statement) {
        Some(function) => ScopeError::KnownResult {
            function,
            answer: handle,
        },
        None => ScopeError::Known(handle),
    }
}

/// Introduces what a statement itself introduces, without its inner blocks. None of it may be in scope already.
pub fn bring(
    outline: &Outline<'_>,
    scope: &mut ExpressionList,
    statement: &Statement,
) -> Result<(), ScopeError>
    ensures brought { OnOk result (scope.new ≡ scope.old ++ introduced (statement_view statement.now)) }
    ensures fresh { OnOk result (All (λ e. ¬ Known (function_view outline.now.function.now) scope.old e) (introduced (statement_view statement.now))) }
    ensures fault { IfErr result (λ r. IfFault r (λ e. (asked : Bool) (answered : List ℕ) → IsFaultHere (function_view outline.now.function.now) asked (spot (statement_view statement.now)) scope.old answered e)) }
{
    match bring_all(outline, scope, statement)? {
        Some(handle) => Err(known_already(statement, handle)),
        None => Ok(()),
    }
}
