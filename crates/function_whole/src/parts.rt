//! The parts of the check of a function after its analysis.

ghost use Rattle.std.specs.Prelude.{◌↔◌, ℕ, Contains, IsTrue, MatchResult, map};
ghost use Rattle.function_whole.specs.Faults.{IsExpressionFault, IsFaultAfter, IsUnanswered};
ghost use Rattle.function_whole.specs.Judged.{AllAnswer, AreExpressionsMet, AreBlocksMet, ArePartsMet, IsBlocksFaultAt};
ghost use Rattle.function_interface.specs.Analysis.{IsRefusedAt, IsRefusedFor};
ghost use Rattle.function_interface.specs.Question.{question};
ghost use Rattle.ir_flags.specs.Sets.{Has};
ghost use Rattle.ir_flags.specs.declared.settings.TheConstants.ValidationFlags.{EXPRESSIONS, BLOCKS};
ghost use Rattle.ir_blocks.specs.judged.Places.{Place};
ghost use Rattle.spec_statements.specs.judged.Results.{AnswersBy};
ghost use Rattle.ir_items.specs.judged.Bases.{BasesPrecede};
ghost use Rattle.spec_expressions.specs.judged.CallArities.{AritiesMatch};
ghost use Rattle.function_statement_checks.specs.View.{context_view, IsKnown};

use crate::answers::check_answers;
use crate::body::check_body;
use crate::callees::KeptStages;
use crate::expressions::check_expressions;
use bitflags::Flags;
use function_body_checks::ExpressionList;
use function_interface::{Lower, check_interface, stages_of};
use function_statement_checks::BlockContext;
use ir_arena::handle::Handle;
use ir_flags::{Settings, ShaderStages, ValidationFlags};
use ir_places::Trail;
use ir_types::key;
use ir_types::refusal::Refusal;
use ir_types::with_span::WithSpan;
use std::alloc::Global;
use typing_errors::FunctionError;

/// The result of checking a valid function.
#[derive(Clone, Copy)]
pub(crate) struct Met {
    /// The stages that may run it.
    pub stages: ShaderStages,
    /// The payload type of all functions so far, if any.
    pub held: Option<Handle<key::IrType>>,
}

// Whether expressions are validated.
fn requires_expressions(flags: ValidationFlags) -> bool
    ensures { IsTrue result ↔ Has flags.0 EXPRESSIONS.0 }
{
    flags.contains(ValidationFlags::EXPRESSIONS)
}

// Whether bodies are validated.
fn requires_blocks(flags: ValidationFlags) -> bool
    ensures { IsTrue result ↔ Has flags.0 BLOCKS.0 }
{
    flags.contains(ValidationFlags::BLOCKS)
}

// Whether all expressions are valid, if they are validated.
#[tactic(auto, using(crate::proofs::PartLaws::unasked_expressions, crate::proofs::PartLaws::asked_expressions))]
fn expressions_met<L: Lower>(
    lower: &L,
    settings: Settings,
    context: &BlockContext<'_>,
    callees: &[L::Info],
) -> Result<ShaderStages, FunctionError>
    requires made { L.is_for lower.now (context_view context.now).m }
    requires known { IsKnown context.now }
    ensures { let q = question (context_view context.now).m (context_view context.now).f (map (L.summary lower.now) callees.now) (map (L.noted lower.now) callees.now) in
        MatchResult result
        (AreExpressionsMet (L.reading lower.now q) settings (context_view context.now))
        (λ e. Has settings.flags.0 EXPRESSIONS.0 × IsExpressionFault (L.reading lower.now q) (L.faults lower.now q) (context_view context.now) e) }
{
    if !requires_expressions(settings.flags) {
        return Ok(ShaderStages::all());
    }
    match check_expressions(lower, context, callees) {
        Ok(stages) => Ok(stages),
        Err(error) => Err(error),
    }
}

// Whether each result expression belongs to a statement, if expressions are validated.
#[tactic(auto, using(crate::proofs::PartLaws::asked_answers))]
fn answers_met(
    alloc: Global,
    settings: Settings,
    context: &BlockContext<'_>,
    answered: &ExpressionList,
) -> Result<(), Refusal<FunctionError>>
    requires { (e : ℕ) → Contains answered.now e ↔ ((p : Place) × AnswersBy (context_view context.now).f.body p e) }
    ensures { MatchResult result
        (λ _. Has settings.flags.0 EXPRESSIONS.0 → AllAnswer (context_view context.now))
        (IsRefusedFor (λ e. Has settings.flags.0 EXPRESSIONS.0 × IsUnanswered (context_view context.now).f e)) }
{
    if !requires_expressions(settings.flags) {
        return Ok(());
    }
    match check_answers(alloc, context, answered) {
        Ok(()) => Ok(()),
        Err(refusal) => Err(refusal),
    }
}

// Whether the body is valid, if bodies are validated.
#[tactic(auto, using(crate::proofs::PartLaws::unasked_blocks, crate::proofs::PartLaws::asked_blocks))]
fn blocks_met<L: Lower>(
    lower: &L,
    alloc: Global,
    trail: &mut Trail,
    settings: Settings,
    held: Option<Handle<key::IrType>>,
    context: &BlockContext<'_>,
    callees: &[L::Info],
) -> Result<Met, Refusal<FunctionError>>
    requires known { IsKnown context.now }
    requires precede { BasesPrecede (context_view context.now).f.expressions }
    requires arities { AritiesMatch (context_view context.now).m (context_view context.now).f }
    ensures { MatchResult result
        (λ met. AreBlocksMet settings held (context_view context.now) (map (L.noted lower.now) callees.now) met.stages met.held)
        (IsRefusedAt trail.new (IsBlocksFaultAt settings held (context_view context.now))) }
{
    if !requires_blocks(settings.flags) {
        return Ok(Met {
            stages: ShaderStages::all(),
            held,
        });
    }
    let found = match check_body(alloc, trail, settings, held, context) {
        Ok(found) => found,
        Err(refusal) => return Err(refusal),
    };
    match answers_met(alloc, settings, context, &found.answered) {
        Ok(()) => {}
        Err(refusal) => return Err(refusal),
    }
    let kept = KeptStages {
        lower,
        infos: callees,
    };
    Ok(Met {
        stages: stages_of(&context.function.body, settings.subgroup_stages, &kept),
        held: found.held,
    })
}

/// Whether the local variables, arguments and result, the expressions and the body of the context's function are valid, in this
/// order, and which stages may run it.
///
/// # Errors
///
/// An error of the first invalid part, at the place of the trail if it is in the body; or out of memory.
#[tactic(auto, using(crate::proofs::PartLaws::parts_met))]
pub(crate) fn check_parts<L: Lower>(
    lower: &L,
    alloc: Global,
    trail: &mut Trail,
    settings: Settings,
    entry_point: bool,
    held: Option<Handle<key::IrType>>,
    context: &BlockContext<'_>,
    callees: &[L::Info],
) -> Result<Met, Refusal<FunctionError>>
    requires made { L.is_for lower.now (context_view context.now).m }
    requires known { IsKnown context.now }
    requires precede { BasesPrecede (context_view context.now).f.expressions }
    requires arities { AritiesMatch (context_view context.now).m (context_view context.now).f }
    ensures { let q = question (context_view context.now).m (context_view context.now).f (map (L.summary lower.now) callees.now) (map (L.noted lower.now) callees.now) in
        MatchResult result
        (λ met. ArePartsMet (L.reading lower.now q) settings entry_point held (context_view context.now) (map (L.noted lower.now) callees.now) met.stages met.held)
        (IsRefusedAt trail.new (IsFaultAfter (L.reading lower.now q) (L.faults lower.now q) settings entry_point held (context_view context.now))) }
{
    match check_interface(alloc, context, lower.type_infos(), entry_point) {
        Ok(()) => {}
        Err(refusal) => return Err(refusal),
    }
    let own = match expressions_met(lower, settings, context, callees) {
        Ok(stages) => stages,
        Err(error) => return Err(Refusal::Fault(WithSpan::new(alloc, error))),
    };
    match blocks_met(lower, alloc, trail, settings, held, context, callees) {
        Ok(met) => Ok(Met {
            stages: ShaderStages(met.stages.0 & own.0),
            held: met.held,
        }),
        Err(refusal) => Err(refusal),
    }
}
