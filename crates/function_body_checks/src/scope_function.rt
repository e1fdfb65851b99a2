//! The scope of a function's body.

ghost use Rattle.std.specs.Prelude.{◌≡◌, ◌↔◌, ℕ, [], Contains, IfErr, IfOk, IsTrue, OnOk};
ghost use Rattle.ir_blocks.specs.judged.Places.{Place};
ghost use Rattle.ir_flags.specs.Sets.{Has};
ghost use Rattle.ir_flags.specs.declared.settings.TheConstants.ValidationFlags.{EXPRESSIONS};
ghost use Rattle.ir_flags.specs.declared.settings.ValidationFlags.{ValidationFlags};
ghost use Rattle.ir_items.specs.judged.Plain.{PlainFunction};
ghost use Rattle.ir_items.specs.found.View.{function_view};
ghost use Rattle.ir_places.specs.Paths.{IsPlaced};
ghost use Rattle.typing_errors.specs.declared.error.FunctionError.TheVariants.{InvalidCall};
ghost use Rattle.function_body_checks.specs.Carried.{IfFault};
ghost use Rattle.function_body_checks.specs.Faults.{IsScopeFaultAt, IsScopeRefusalAt};
ghost use Rattle.spec_statements.specs.found.Answered.{EachOnce};
ghost use Rattle.spec_statements.specs.judged.Results.{AnswersBy};
ghost use Rattle.spec_statements.specs.judged.Scope.{ScopeOK};

use crate::always::{Outline, next_always};
use crate::error::ScopeError;
use crate::list::ExpressionList;
use crate::scope::check_block;
use crate::statement::Carried;
use bitflags::Flags;
use ir_arena::handle::Handle;
use ir_flags::ValidationFlags;
use ir_items::{Function, key};
use ir_places::Trail;
use ir_types::refusal::Refusal;
use ir_types::with_span::WithSpan;
use std::alloc::{AllocError, Global};
use typing_errors::{AtomicError, CallError, ExpressionError, FunctionError};

// An empty scope, without results. The error is out of memory.
fn beginning(alloc: Global, count: usize) -> Result<Carried, AllocError>
    ensures scope { IfOk result (λ c. c.scope ≡ []) }
    ensures answered { IfOk result (λ c. c.answered ≡ []) }
{
    let scope = ExpressionList::new(alloc, count)?;
    Ok(Carried {
        scope,
        answered: ExpressionList::new(alloc, count)?,
    })
}

// The error of a call.
fn refused_call(
    alloc: Global,
    function: Handle<key::Function>,
    error: CallError,
) -> Refusal<FunctionError>
    ensures { (flags : ValidationFlags) (f : PlainFunction) (p : Place) → IsScopeFaultAt flags f (InvalidCall function error) p → IsScopeRefusalAt flags f result p }
{
    let error = FunctionError::InvalidCall { function, error };
    Refusal::Fault(WithSpan::new(alloc, error))
}

// The function's error for the error of the walk.
fn refused(alloc: Global, error: ScopeError) -> Refusal<FunctionError>
    ensures { (flags : ValidationFlags) (f : PlainFunction) (p : Place) → IfFault error (λ e. IsScopeFaultAt flags f e p) → IsScopeRefusalAt flags f result p }
{
    match error {
        ScopeError::Memory(error) => Refusal::Memory(error),
        ScopeError::Unknown(handle) => {
            let source = ExpressionError::NotInScope;
            Refusal::Fault(WithSpan::new(alloc, FunctionError::Expression { handle, source }))
        }
        ScopeError::UnknownArgument { function, index } => {
            let source = ExpressionError::NotInScope;
            refused_call(alloc, function, CallError::Argument { index, source })
        }
        ScopeError::Known(handle) => Refusal::Fault(WithSpan::new(
            alloc,
            FunctionError::ExpressionAlreadyInScope(handle),
        )),
        ScopeError::KnownResult { function, answer } => {
            refused_call(alloc, function, CallError::ResultAlreadyInScope(answer))
        }
        ScopeError::Answered { function, answer } => {
            refused_call(alloc, function, CallError::ResultAlreadyPopulated(answer))
        }
        ScopeError::AnsweredAtomic(answer) => {
            let error = AtomicError::ResultAlreadyPopulated(answer);
            Refusal::Fault(WithSpan::new(alloc, FunctionError::InvalidAtomic(error)))
        }
    }
}

// Whether results of statements are required.
fn requires_results(flags: ValidationFlags) -> bool
    ensures { IsTrue result ↔ Has flags.0 EXPRESSIONS.0 }
{
    flags.contains(ValidationFlags::EXPRESSIONS)
}

/// Whether the statements of a function use only what is in scope, introduce only what is not, and have distinct results; and,
/// if expressions are not validated, no results. Returns the result expressions of calls and atomic operations (naga's
/// `valid_expression_set` and `needs_visit`).
///
/// # Errors
///
/// An error of a statement at the place of the trail (the first in text order, which no clause states):
/// [`FunctionError::Expression`] with `NotInScope` for an operand, or [`FunctionError::InvalidCall`] with `Argument` for an
/// argument; [`FunctionError::ExpressionAlreadyInScope`], or `ResultAlreadyInScope` for a call; `ResultAlreadyPopulated` for a
/// call or an atomic operation. [`Refusal::Memory`] if out of memory.
pub fn check_scope(
    alloc: Global,
    trail: &mut Trail,
    flags: ValidationFlags,
    function: &Function,
) -> Result<ExpressionList, Refusal<FunctionError>>
    ensures scope { OnOk result (ScopeOK (function_view function.now)) }
    ensures once { OnOk result (EachOnce (function_view function.now).body) }
    ensures asked { OnOk result ((p : Place) (e : ℕ) → AnswersBy (function_view function.now).body p e → Has flags.0 EXPRESSIONS.0) }
    ensures answered { IfOk result (λ answered. (e : ℕ) → Contains answered e ↔ ((p : Place) × AnswersBy (function_view function.now).body p e)) }
    ensures fault { IfErr result (λ r. IsPlaced trail.new (IsScopeRefusalAt flags (function_view function.now) r)) }
{
    let asked = requires_results(flags);
    let always = next_always(alloc, function)?;
    let outline = Outline {
        function,
        asked,
        always: &always,
    };
    let mut carried = beginning(alloc, function.expressions.len())?;
    match check_block(&outline, &mut carried, trail, &function.body) {
        Ok(()) => {
            let Carried { answered, scope: _ } = carried;
            Ok(answered)
        }
        Err(error) => Err(refused(alloc, error)),
    }
}
