// The JSON forms of the tagged parts of statements.
ghost use Rattle.std.specs.Prelude.{◌≡◌, option_map};
ghost use Rattle.ir_kinds.specs.declared.values.SwitchValue.{SwitchValue};
ghost use Rattle.ir_blocks.specs.declared.operations.AtomicFunction.{AtomicFunction};
ghost use Rattle.ir_blocks.specs.declared.operations.GatherMode.{GatherMode};
ghost use Rattle.ir_blocks.specs.declared.operations.RayQueryFunction.{RayQueryFunction};
ghost use Rattle.ir_blocks.specs.declared.operations.RayPipelineFunction.{RayPipelineFunction};
ghost use Rattle.document_reader.specs.found.Statements.{a_value, an_atomic, a_gather, a_ray_query, a_pipeline};

use crate::kinds::{AtomicKind, GatherKind, PipelineKind, RayQueryKind, ValueKind};
use document_forms::{At, End, Form, I32, Maybe, ReadError, U32, WordOf, read_items, read_tag};
use ir_blocks::{AtomicFunction, GatherMode, RayPipelineFunction, RayQueryFunction};
use ir_kinds::{Direction, SwitchValue};
use ir_types::key;
use serde_json::Value;
use std::alloc::Global;

type E = At<key::Expression>;

/// The JSON form of a switch value.
pub struct ValueForm;

impl Form for ValueForm {
    type Item = SwitchValue;

    ghost Plain = { SwitchValue };

    ghost view = { λ x. x };

    ghost form = { a_value };

    #[tactic(auto, unfolding(crate::specs::found::Statements::value_with))]
    fn read(alloc: Global, value: &Value) -> Result<SwitchValue, ReadError> {
        let (kind, rest) = read_tag(value)?;
        match kind {
            ValueKind::I32 => {
                let (value,) = read_items::<(I32,)>(alloc, rest)?;
                Ok(SwitchValue::I32(value))
            }
            ValueKind::U32 => {
                let (value,) = read_items::<(U32,)>(alloc, rest)?;
                Ok(SwitchValue::U32(value))
            }
            ValueKind::Default => {
                read_items::<End>(alloc, rest)?;
                Ok(SwitchValue::Default)
            }
        }
    }
}

/// The JSON form of an atomic function.
pub struct AtomicForm;

impl Form for AtomicForm {
    type Item = AtomicFunction;

    ghost Plain = { AtomicFunction };

    ghost view = { λ x. x };

    ghost form = { an_atomic };

    #[tactic(auto, unfolding(crate::specs::found::Statements::atomic_with))]
    fn read(alloc: Global, value: &Value) -> Result<AtomicFunction, ReadError> {
        let (kind, rest) = read_tag(value)?;
        match kind {
            AtomicKind::Add => {
                read_items::<End>(alloc, rest)?;
                Ok(AtomicFunction::Add)
            }
            AtomicKind::Subtract => {
                read_items::<End>(alloc, rest)?;
                Ok(AtomicFunction::Subtract)
            }
            AtomicKind::And => {
                read_items::<End>(alloc, rest)?;
                Ok(AtomicFunction::And)
            }
            AtomicKind::ExclusiveOr => {
                read_items::<End>(alloc, rest)?;
                Ok(AtomicFunction::ExclusiveOr)
            }
            AtomicKind::InclusiveOr => {
                read_items::<End>(alloc, rest)?;
                Ok(AtomicFunction::InclusiveOr)
            }
            AtomicKind::Min => {
                read_items::<End>(alloc, rest)?;
                Ok(AtomicFunction::Min)
            }
            AtomicKind::Max => {
                read_items::<End>(alloc, rest)?;
                Ok(AtomicFunction::Max)
            }
            AtomicKind::Exchange => {
                let (compare,) = read_items::<(Maybe<E>,)>(alloc, rest)?;
                Ok(AtomicFunction::Exchange { compare })
            }
        }
    }
}

/// The JSON form of a gather mode.
pub struct GatherForm;

impl Form for GatherForm {
    type Item = GatherMode;

    ghost Plain = { GatherMode };

    ghost view = { λ x. x };

    ghost form = { a_gather };

    #[tactic(auto, unfolding(crate::specs::found::Statements::gather_with))]
    fn read(alloc: Global, value: &Value) -> Result<GatherMode, ReadError> {
        let (kind, rest) = read_tag(value)?;
        match kind {
            GatherKind::BroadcastFirst => {
                read_items::<End>(alloc, rest)?;
                Ok(GatherMode::BroadcastFirst)
            }
            GatherKind::Broadcast => {
                let (index,) = read_items::<(E,)>(alloc, rest)?;
                Ok(GatherMode::Broadcast(index))
            }
            GatherKind::Shuffle => {
                let (index,) = read_items::<(E,)>(alloc, rest)?;
                Ok(GatherMode::Shuffle(index))
            }
            GatherKind::ShuffleDown => {
                let (index,) = read_items::<(E,)>(alloc, rest)?;
                Ok(GatherMode::ShuffleDown(index))
            }
            GatherKind::ShuffleUp => {
                let (index,) = read_items::<(E,)>(alloc, rest)?;
                Ok(GatherMode::ShuffleUp(index))
            }
            GatherKind::ShuffleXor => {
                let (index,) = read_items::<(E,)>(alloc, rest)?;
                Ok(GatherMode::ShuffleXor(index))
            }
            GatherKind::QuadBroadcast => {
                let (index,) = read_items::<(E,)>(alloc, rest)?;
                Ok(GatherMode::QuadBroadcast(index))
            }
            GatherKind::QuadSwap => {
                let (direction,) = read_items::<(WordOf<Direction>,)>(alloc, rest)?;
                Ok(GatherMode::QuadSwap(direction))
            }
        }
    }
}

/// The JSON form of a ray query function.
pub struct RayQueryForm;

impl Form for RayQueryForm {
    type Item = RayQueryFunction;

    ghost Plain = { RayQueryFunction };

    ghost view = { λ x. x };

    ghost form = { a_ray_query };

    #[tactic(auto, unfolding(crate::specs::found::Statements::ray_query_with))]
    fn read(alloc: Global, value: &Value) -> Result<RayQueryFunction, ReadError> {
        let (kind, rest) = read_tag(value)?;
        match kind {
            RayQueryKind::Initialize => {
                let (acceleration_structure, descriptor) = read_items::<(E, E)>(alloc, rest)?;
                Ok(RayQueryFunction::Initialize {
                    acceleration_structure,
                    descriptor,
                })
            }
            RayQueryKind::Proceed => {
                let (answer,) = read_items::<(E,)>(alloc, rest)?;
                Ok(RayQueryFunction::Proceed { result: answer })
            }
            RayQueryKind::GenerateIntersection => {
                let (hit_t,) = read_items::<(E,)>(alloc, rest)?;
                Ok(RayQueryFunction::GenerateIntersection { hit_t })
            }
            RayQueryKind::ConfirmIntersection => {
                read_items::<End>(alloc, rest)?;
                Ok(RayQueryFunction::ConfirmIntersection)
            }
            RayQueryKind::Terminate => {
                read_items::<End>(alloc, rest)?;
                Ok(RayQueryFunction::Terminate)
            }
        }
    }
}

/// The JSON form of a ray pipeline function.
pub struct PipelineForm;

impl Form for PipelineForm {
    type Item = RayPipelineFunction;

    ghost Plain = { RayPipelineFunction };

    ghost view = { λ x. x };

    ghost form = { a_pipeline };

    #[tactic(auto, unfolding(crate::specs::found::Statements::pipeline_with))]
    fn read(alloc: Global, value: &Value) -> Result<RayPipelineFunction, ReadError> {
        let (kind, rest) = read_tag(value)?;
        match kind {
            PipelineKind::TraceRay => {
                let (acceleration_structure, descriptor, payload) = read_items::<(E, E, E)>(
                    alloc, rest,
                )?;
                Ok(RayPipelineFunction::TraceRay {
                    acceleration_structure,
                    descriptor,
                    payload,
                })
            }
        }
    }
}
