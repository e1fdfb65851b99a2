//! Payload types of the rays that a function traces.

ghost use Rattle.std.specs.Prelude.{◌≡◌, ◌≢◌, ℕ, Option as Maybe, option_map, MatchResult};
ghost use Rattle.std.specs.Option.{MatchOption};
ghost use Rattle.ir_blocks.specs.judged.Plain.{operation, ray_pipeline};
ghost use Rattle.ir_blocks.specs.found.View.{statement_view};
ghost use Rattle.ir_places.specs.Paths.{IsPlaced};
ghost use Rattle.function_statements.specs.Payloads.{payload_type, unlike, AreOfOneType, IsPayloadsFaultAt, TracesAt};
ghost use Rattle.spec_statements.specs.judged.Payloads.{HasPayload};
ghost use Rattle.spec_statements.specs.judged.Variables.{variable_at};

use function_statement_checks::{StatementContext, variable_at};
use ir_arena::handle::Handle;
use ir_blocks::{RayPipelineFunction, Statement};
use ir_places::Trail;
use ir_types::key;
use typing_errors::FunctionError;
use typing_references::{StatementLook, first_in, placed_in};

// ---- one payload

// The type of the global variable that a payload is.
fn type_at<C: StatementContext>(
    context: &C,
    payload: Handle<key::Expression>,
) -> Option<Handle<key::IrType>>
    ensures { result ≡ option_map (λ g. g.ty) (variable_at (C.seen context.now).m (C.seen context.now).f payload) }
{
    match variable_at(context, payload) {
        Some(variable) => Some(variable.ty),
        None => None,
    }
}

// The payload type of a ray traced by a pipeline.
fn traced_type<C: StatementContext>(
    context: &C,
    fun: &RayPipelineFunction,
) -> Option<Handle<key::IrType>>
    ensures { result ≡ payload_type (C.seen context.now) (operation (ray_pipeline fun.now)) }
{
    match *fun {
        RayPipelineFunction::TraceRay { payload, .. } => type_at(context, payload),
    }
}

// The payload type of a ray traced by a statement.
fn payload_type<C: StatementContext>(
    context: &C,
    statement: &Statement,
) -> Option<Handle<key::IrType>>
    ensures { result ≡ payload_type (C.seen context.now) (statement_view statement.now) }
{
    match statement {
        Statement::RayPipelineFunction(fun) => traced_type(context, fun),
        Statement::Emit(_)
        | Statement::Block(_)
        | Statement::If { .. }
        | Statement::Switch { .. }
        | Statement::Loop { .. }
        | Statement::Break
        | Statement::Continue
        | Statement::Return { .. }
        | Statement::Kill
        | Statement::ControlBarrier(_)
        | Statement::MemoryBarrier(_)
        | Statement::Store { .. }
        | Statement::ImageStore { .. }
        | Statement::Atomic { .. }
        | Statement::ImageAtomic { .. }
        | Statement::WorkGroupUniformLoad { .. }
        | Statement::Call { .. }
        | Statement::RayQuery { .. }
        | Statement::SubgroupBallot { .. }
        | Statement::SubgroupCollectiveOperation { .. }
        | Statement::SubgroupGather { .. }
        | Statement::CooperativeStore { .. } => None,
    }
}

// A type, if it is another one.
fn unlike(ty: Option<Handle<key::IrType>>, held: Handle<key::IrType>) -> Option<Handle<key::IrType>>
    ensures { result ≡ unlike held ty }
{
    match ty {
        Some(ty) => { if ty == held { None } else { Some(ty) } }
        None => None,
    }
}

// ---- all of them

// Payloads of any type.
#[derive(Drop)]
struct AnyPayload<'a, C> {
    context: &'a C,
}

impl<'a, C: StatementContext> StatementLook<Handle<key::IrType>> for AnyPayload<'a, C> {
    ghost use Rattle.function_statements.specs.Payloads.{payload_type};

    ghost look = { λ t s. payload_type (C.seen t.context.now) s };

    fn look(&self, statement: &Statement) -> Option<Handle<key::IrType>> {
        payload_type(self.context, statement)
    }
}

// Payloads of another type.
#[derive(Drop)]
struct OtherPayload<'a, C> {
    context: &'a C,
    held: Handle<key::IrType>,
}

impl<'a, C: StatementContext> StatementLook<Handle<key::IrType>> for OtherPayload<'a, C> {
    ghost use Rattle.function_statements.specs.Payloads.{payload_type, unlike};

    ghost look = { λ t s. unlike t.held (payload_type (C.seen t.context.now) s) };

    fn look(&self, statement: &Statement) -> Option<Handle<key::IrType>> {
        unlike(payload_type(self.context, statement), self.held)
    }
}

// The payload type of the function, if any.
fn first_payload<C: StatementContext>(context: &C) -> Option<Handle<key::IrType>>
    ensures { MatchOption result
        ((type : ℕ) → HasPayload (C.seen context.now).m (C.seen context.now).f type → ⊥)
        (HasPayload (C.seen context.now).m (C.seen context.now).f) }
{
    let any = AnyPayload { context };
    first_in(&any, context.body())
}

// Another payload type of the function, if any, and its place.
fn other_payload<C: StatementContext>(
    trail: &mut Trail,
    context: &C,
    held: Handle<key::IrType>,
) -> Option<Handle<key::IrType>>
    ensures { MatchOption result
        ((type : ℕ) → HasPayload (C.seen context.now).m (C.seen context.now).f type → type ≡ held)
        (λ type. IsPlaced trail.new (λ p. TracesAt (C.seen context.now).m (C.seen context.now).f p type × (type ≢ held))) }
{
    let other = OtherPayload { context, held };
    placed_in(trail, &other, context.body())
}

/// The payload type of all functions so far, if any: that of earlier ones, which is given, or else that of this function. The
/// body is walked at most twice. Whether a payload is a variable is not part of it.
///
/// # Errors
///
/// [`FunctionError::MismatchedPayloadType`] for a payload of another type than that of earlier functions, or than an earlier
/// one of the function: that of the ray at the place of the trail.
#[tactic(auto, using(crate::proofs::PayloadLemmas::before_held, crate::proofs::PayloadLemmas::found_held))]
pub fn payload_of<C: StatementContext>(
    trail: &mut Trail,
    context: &C,
    held: Option<Handle<key::IrType>>,
) -> Result<Option<Handle<key::IrType>>, FunctionError>
    ensures { MatchResult result
        (AreOfOneType (C.seen context.now).m (C.seen context.now).f held)
        (λ e. IsPlaced trail.new (IsPayloadsFaultAt (C.seen context.now).m (C.seen context.now).f held e)) }
{
    match held {
        Some(before) => match other_payload(trail, context, before) {
            Some(ty) => Err(FunctionError::MismatchedPayloadType(ty, before)),
            None => Ok(held),
        },
        None => match first_payload(context) {
            Some(before) => match other_payload(trail, context, before) {
                Some(ty) => Err(FunctionError::MismatchedPayloadType(ty, before)),
                None => Ok(Some(before)),
            },
            None => Ok(None),
        },
    }
}
