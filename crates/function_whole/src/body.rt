//! The checks of a function's body.

ghost use Rattle.std.specs.Prelude.{◌↔◌, IfErr, IsTrue, MatchResult, OnOk};
ghost use Rattle.function_whole.specs.Faults.{IsFaultOfBodyAt};
ghost use Rattle.function_whole.specs.Judged.{IsBodyMet};
ghost use Rattle.function_interface.specs.Analysis.{IsRefusedAt};
ghost use Rattle.ir_flags.specs.Sets.{Has};
ghost use Rattle.ir_flags.specs.declared.settings.TheConstants.ValidationFlags.{STRICT_SCOPE};
ghost use Rattle.ir_items.specs.found.View.{function_view};
ghost use Rattle.ir_items.specs.judged.Bases.{BasesPrecede};
ghost use Rattle.spec_expressions.specs.judged.CallArities.{AritiesMatch};
ghost use Rattle.spec_statements.specs.judged.Scope.{ScopeOK};
ghost use Rattle.spec_statements.specs.judged.Strict.{StrictOK};
ghost use Rattle.function_statement_checks.specs.View.{context_view, IsKnown};
ghost use Rattle.function_strict_scope.specs.Faults.{IsStrictFaultAt};

use bitflags::Flags;
use function_body_checks::{ExpressionList, check_control, check_scope};
use function_statement_checks::BlockContext;
use function_statements::{payload_of, validate_statements};
use function_strict_scope::check_strict;
use ir_arena::handle::Handle;
use ir_flags::{Settings, ValidationFlags};
use ir_items::Function;
use ir_places::Trail;
use ir_types::key;
use ir_types::refusal::Refusal;
use ir_types::with_span::WithSpan;
use std::alloc::Global;
use typing_errors::FunctionError;

/// The result of checking a body.
#[derive(Drop)]
pub(crate) struct BodyFound {
    /// The results of its calls and atomic operations.
    pub answered: ExpressionList,
    /// The payload type of all functions so far, if any.
    pub held: Option<Handle<key::IrType>>,
}

// Whether strict scope is checked.
fn requires_strict(flags: ValidationFlags) -> bool
    ensures { IsTrue result ↔ Has flags.0 STRICT_SCOPE.0 }
{
    flags.contains(ValidationFlags::STRICT_SCOPE)
}

// Whether strict scope holds, if it is checked, for a body that passed the scope check.
fn check_strictly(
    alloc: Global,
    trail: &mut Trail,
    flags: ValidationFlags,
    function: &Function,
) -> Result<(), Refusal<FunctionError>>
    ensures strict { OnOk result (Has flags.0 STRICT_SCOPE.0 → StrictOK (function_view function.now)) }
    ensures fault { ScopeOK (function_view function.now) → IfErr result (IsRefusedAt trail.new (λ e p. Has flags.0 STRICT_SCOPE.0 × IsStrictFaultAt (function_view function.now) e p)) }
{
    if !requires_strict(flags) {
        return Ok(());
    }
    match check_strict(alloc, trail, function) {
        Ok(()) => Ok(()),
        Err(refusal) => Err(refusal),
    }
}

/// Whether the body of the context's function is valid, except that each result expression belongs to a statement.
pub(crate) fn check_body(
    alloc: Global,
    trail: &mut Trail,
    settings: Settings,
    held: Option<Handle<key::IrType>>,
    context: &BlockContext<'_>,
) -> Result<BodyFound, Refusal<FunctionError>>
    requires known { IsKnown context.now }
    requires precede { BasesPrecede (context_view context.now).f.expressions }
    requires arities { AritiesMatch (context_view context.now).m (context_view context.now).f }
    ensures { MatchResult result
        (λ found. IsBodyMet settings held (context_view context.now) found.answered found.held)
        (IsRefusedAt trail.new (IsFaultOfBodyAt settings held (context_view context.now))) }
{
    match check_control(trail, &context.function.body) {
        Ok(()) => {}
        Err(error) => return Err(Refusal::Fault(WithSpan::new(alloc, error))),
    }
    let answered = match check_scope(alloc, trail, settings.flags, context.function) {
        Ok(answered) => answered,
        Err(refusal) => return Err(refusal),
    };
    match check_strictly(alloc, trail, settings.flags, context.function) {
        Ok(()) => {}
        Err(refusal) => return Err(refusal),
    }
    match validate_statements(alloc, trail, context) {
        Ok(()) => {}
        Err(refusal) => return Err(refusal),
    }
    match payload_of(trail, context, held) {
        Ok(held) => Ok(BodyFound { answered, held }),
        Err(error) => Err(Refusal::Fault(WithSpan::new(alloc, error))),
    }
}
