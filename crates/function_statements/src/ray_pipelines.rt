//! Rays traced by a pipeline.

ghost use Rattle.std.specs.Prelude.{◌↔◌, IsTrue, MatchResult};
ghost use Rattle.function_statements.specs.RayPipelines.{IsPayload, IsPayloadFault, IsTraceFault, IsRayPipelineFault};
ghost use Rattle.spec_statements.specs.judged.RayPipelines.{IsPayloadSpace, TraceOK, RayPipelineOK};

use crate::rays::{is_ray_descriptor, structure_of};
use function_statement_checks::{StatementContext, pointer_space, variable_at};
use ir_arena::handle::Handle;
use ir_blocks::RayPipelineFunction;
use ir_kinds::AddressSpace;
use ir_types::key;
use typing_errors::FunctionError;

// Whether an address space is one of payloads.
const fn is_payload_space(space: AddressSpace) -> bool
    ensures { IsTrue result ↔ IsPayloadSpace space }
{
    match space {
        AddressSpace::RayPayload | AddressSpace::IncomingRayPayload => true,
        AddressSpace::Function
        | AddressSpace::Private
        | AddressSpace::WorkGroup
        | AddressSpace::Uniform
        | AddressSpace::Storage { .. }
        | AddressSpace::Handle
        | AddressSpace::Immediate
        | AddressSpace::TaskPayload => false,
    }
}

// Whether an expression is a payload: a global variable in such an address space.
fn is_payload<C: StatementContext>(context: &C, payload: Handle<key::Expression>) -> bool
    ensures { IsTrue result ↔ IsPayload (C.seen context.now) payload }
{
    match variable_at(context, payload) {
        Some(variable) => is_payload_space(variable.space),
        None => false,
    }
}

// The error of an expression that is not a payload.
fn payload_error<C: StatementContext>(
    context: &C,
    payload: Handle<key::Expression>,
) -> FunctionError
    requires { ¬ IsPayload (C.seen context.now) payload }
    ensures { IsPayloadFault (C.seen context.now) payload result }
{
    match pointer_space(context.form_at(payload)) {
        None => FunctionError::InvalidPayloadType,
        Some(space) => {
            if is_payload_space(space) {
                FunctionError::PayloadPointerNotGlobal
            } else {
                FunctionError::InvalidPayloadAddressSpace(space)
            }
        }
    }
}

// Whether a ray has an acceleration structure, a descriptor and a payload.
fn check_trace<C: StatementContext>(
    context: &C,
    structure: Handle<key::Expression>,
    descriptor: Handle<key::Expression>,
    payload: Handle<key::Expression>,
) -> Result<(), FunctionError>
    requires { C.known context.now }
    ensures { MatchResult result
        (λ _. TraceOK (C.seen context.now) structure descriptor payload)
        (IsTraceFault (C.seen context.now) structure descriptor payload) }
{
    if structure_of(context.form_at(structure)).is_none() {
        return Err(FunctionError::InvalidAccelerationStructure(structure));
    }
    if !is_payload(context, payload) {
        return Err(payload_error(context, payload));
    }
    let described = context.form_at(descriptor);
    if !is_ray_descriptor(context, &described) {
        return Err(FunctionError::InvalidRayDescriptor(descriptor));
    }
    Ok(())
}

/// Whether a ray traced by a pipeline is valid: it has an acceleration structure, a ray descriptor, and a payload that is a
/// global variable in an address space of payloads. The payload's type is not part of it.
///
/// # Errors
///
/// [`FunctionError::InvalidAccelerationStructure`] or [`FunctionError::InvalidRayDescriptor`] for another type. For the payload
/// [`FunctionError::InvalidPayloadType`] if it is not a pointer, [`FunctionError::InvalidPayloadAddressSpace`] for another
/// address space, and [`FunctionError::PayloadPointerNotGlobal`] if it is not itself a variable.
pub fn check_ray_pipeline<C: StatementContext>(
    context: &C,
    fun: RayPipelineFunction,
) -> Result<(), FunctionError>
    requires { C.known context.now }
    ensures { MatchResult result
        (λ _. RayPipelineOK (C.seen context.now) fun)
        (IsRayPipelineFault (C.seen context.now) fun) }
{
    match fun {
        RayPipelineFunction::TraceRay {
            acceleration_structure,
            descriptor,
            payload,
        } => check_trace(context, acceleration_structure, descriptor, payload),
    }
}
