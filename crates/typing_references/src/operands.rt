//! Visitors of the operands of expressions and of statements: one match arm per kind.

ghost use Rattle.std.specs.Prelude.{◌≡◌, ◌∷◌};
ghost use Rattle.ir_types.specs.judged.ExpressionPlain.{expression_view};
ghost use Rattle.ir_blocks.specs.found.View.{statement_view};
ghost use Rattle.spec_expressions.specs.judged.Operands.{Operands, these, each_of, used, reads, reads_if, scoped, level_first, level_second, query_level, comparand, where_answered, gather_index, of_query, of_pipeline};
ghost use Rattle.spec_expressions.specs.judged.Kinds.{expression_slots, statement_slots};
ghost use Rattle.spec_expressions.specs.declared.operand.Scoping.TheVariants.{Strictly};

use ir_arena::handle::Handle;
use ir_items::{AtomicFunction, GatherMode, RayPipelineFunction, RayQueryFunction, Statement, key};
use ir_types::{Expression, ImageQuery, SampleLevel};
use spec_expressions::{Scoping, Slot, Usage};

type Operand = Handle<key::Expression>;

/// A visitor of the operands of an expression or of a statement, with a state and a result.
pub trait OperandUser<S, A> {
    ghost use Rattle.spec_expressions.specs.judged.Operands.{Operands};

    /// The visit takes the state before to the state after, with this result.
    ghost does: { Self → S → S → A → Operands → Type 0 };

    /// Visits a few optional operands.
    fn take_slots(&self, state: &mut S, slots: &[Slot]) -> A
        ensures { does self.now state.old state.new result (these slots.now) };

    /// Visits a list of operands, each of which is read.
    fn take_list(&self, state: &mut S, scoping: Scoping, handles: &[Handle<key::Expression>]) -> A
        ensures { does self.now state.old state.new result (each_of scoping handles.now) };
}

// ---- one operand

fn used(usage: Usage, handle: Operand) -> Slot
    ensures { result ≡ used usage handle }
{
    Slot {
        handle: Some(handle),
        usage,
        scoping: Scoping::Always,
    }
}

fn reads(handle: Operand) -> Slot
    ensures { result ≡ reads handle }
{
    used(Usage::Read, handle)
}

fn reads_if(handle: Option<Operand>) -> Slot
    ensures { result ≡ reads_if handle }
{
    Slot {
        handle,
        usage: Usage::Read,
        scoping: Scoping::Always,
    }
}

fn scoped(scoping: Scoping, slot: Slot) -> Slot
    ensures { result ≡ scoped scoping slot }
{
    Slot {
        handle: slot.handle,
        usage: slot.usage,
        scoping,
    }
}

fn strictly(slot: Slot) -> Slot
    ensures { result ≡ scoped Strictly slot }
{
    scoped(Scoping::Strictly, slot)
}

// ---- expressions

fn level_first(level: SampleLevel) -> Option<Operand>
    ensures { result ≡ level_first level }
{
    match level {
        SampleLevel::Auto | SampleLevel::Zero => None,
        SampleLevel::Exact(level) => Some(level),
        SampleLevel::Bias(bias) => Some(bias),
        SampleLevel::Gradient { x, .. } => Some(x),
    }
}

fn level_second(level: SampleLevel) -> Option<Operand>
    ensures { result ≡ level_second level }
{
    match level {
        SampleLevel::Auto | SampleLevel::Zero => None,
        SampleLevel::Exact(_) | SampleLevel::Bias(_) => None,
        SampleLevel::Gradient { y, .. } => Some(y),
    }
}

fn query_level(query: ImageQuery) -> Option<Operand>
    ensures { result ≡ query_level query }
{
    match query {
        ImageQuery::Size { level } => level,
        ImageQuery::NumLevels | ImageQuery::NumLayers | ImageQuery::NumSamples => None,
    }
}

// An operand of an expression, which is read.
fn read(handle: Operand) -> Slot
    ensures { result ≡ scoped Strictly (reads handle) }
{
    strictly(reads(handle))
}

fn read_if(handle: Option<Operand>) -> Slot
    ensures { result ≡ scoped Strictly (reads_if handle) }
{
    strictly(reads_if(handle))
}

/// Visits the operands of an expression.
pub fn with_operands<S, A, T: OperandUser<S, A>>(
    user: &T,
    state: &mut S,
    expression: &Expression,
) -> A
    ensures { T.does user.now state.old state.new result (expression_slots (expression_view expression.now)) }
{
    match expression {
        Expression::Literal(_)
        | Expression::Constant(_)
        | Expression::Override(_)
        | Expression::ZeroValue(_)
        | Expression::FunctionArgument(_)
        | Expression::GlobalVariable(_)
        | Expression::LocalVariable(_)
        | Expression::CallResult(_)
        | Expression::AtomicResult { .. }
        | Expression::WorkGroupUniformLoadResult { .. }
        | Expression::RayQueryProceedResult
        | Expression::SubgroupBallotResult
        | Expression::SubgroupOperationResult { .. } => user.take_slots(state, &[]),
        Expression::Compose { components, .. } => {
            user.take_list(state, Scoping::Strictly, components.as_slice())
        }
        Expression::Access { base, index } => {
            user.take_slots(state, &[strictly(used(Usage::Base, *base)), read(*index)])
        }
        Expression::AccessIndex { base, .. } => user.take_slots(
            state,
            &[strictly(used(Usage::Base, *base))],
        ),
        Expression::Splat { value, .. } => user.take_slots(state, &[read(*value)]),
        Expression::Swizzle { vector, .. } => user.take_slots(state, &[read(*vector)]),
        Expression::Load { pointer } => user.take_slots(state, &[read(*pointer)]),
        Expression::ImageSample {
            image,
            sampler,
            coordinate,
            array_index,
            offset,
            level,
            depth_ref,
            ..
        } => {
            let first = level_first(*level);
            let second = level_second(*level);
            user.take_slots(
                state,
                &[
                    read(*image),
                    read(*sampler),
                    read(*coordinate),
                    read_if(*array_index),
                    read_if(*offset),
                    read_if(first),
                    read_if(second),
                    read_if(*depth_ref),
                ],
            )
        }
        Expression::ImageLoad {
            image,
            coordinate,
            array_index,
            sample,
            level,
        } => user.take_slots(
            state,
            &[
                read(*image),
                read(*coordinate),
                read_if(*array_index),
                read_if(*sample),
                read_if(*level),
            ],
        ),
        Expression::ImageQuery { image, query } => {
            let level = query_level(*query);
            user.take_slots(
                state,
                &[strictly(used(Usage::Query, *image)), read_if(level)],
            )
        }
        Expression::Unary { expr, .. }
        | Expression::Derivative { expr, .. }
        | Expression::As { expr, .. } => user.take_slots(state, &[read(*expr)]),
        Expression::Binary { left, right, .. } => {
            user.take_slots(state, &[read(*left), read(*right)])
        }
        Expression::Select {
            condition,
            accept,
            reject,
        } => user.take_slots(state, &[read(*condition), read(*accept), read(*reject)]),
        Expression::Relational { argument, .. } => user.take_slots(state, &[read(*argument)]),
        Expression::Math {
            arg,
            arg1,
            arg2,
            arg3,
            ..
        } => user.take_slots(
            state,
            &[read(*arg), read_if(*arg1), read_if(*arg2), read_if(*arg3)],
        ),
        Expression::ArrayLength(array) => user.take_slots(
            state,
            &[strictly(used(Usage::Query, *array))],
        ),
        Expression::RayQueryVertexPositions { query, .. }
        | Expression::RayQueryGetIntersection { query, .. } => {
            user.take_slots(state, &[read(*query)])
        }
        Expression::CooperativeLoad { block, .. } => {
            user.take_slots(state, &[read(block.pointer), read(block.stride)])
        }
        Expression::CooperativeMultiplyAdd { a, b, c } => {
            user.take_slots(state, &[read(*a), read(*b), read(*c)])
        }
    }
}

// ---- statements

fn compared(fun: AtomicFunction) -> Option<Operand>
    ensures { result ≡ comparand fun }
{
    match fun {
        AtomicFunction::Exchange { compare } => compare,
        AtomicFunction::Add
        | AtomicFunction::Subtract
        | AtomicFunction::And
        | AtomicFunction::ExclusiveOr
        | AtomicFunction::InclusiveOr
        | AtomicFunction::Min
        | AtomicFunction::Max => None,
    }
}

// When the comparand of an atomic operation with this result has to be in scope.
fn where_answered(answer: Option<Operand>) -> Scoping
    ensures { result ≡ where_answered answer }
{
    match answer {
        Some(_) => Scoping::Always,
        None => Scoping::Strictly,
    }
}

fn gather_index(mode: GatherMode) -> Option<Operand>
    ensures { result ≡ gather_index mode }
{
    match mode {
        GatherMode::BroadcastFirst | GatherMode::QuadSwap(_) => None,
        GatherMode::Broadcast(index)
        | GatherMode::Shuffle(index)
        | GatherMode::ShuffleDown(index)
        | GatherMode::ShuffleUp(index)
        | GatherMode::ShuffleXor(index)
        | GatherMode::QuadBroadcast(index) => Some(index),
    }
}

fn with_ray_query<S, A, T: OperandUser<S, A>>(
    user: &T,
    state: &mut S,
    query: Operand,
    fun: RayQueryFunction,
) -> A
    ensures { T.does user.now state.old state.new result (these (scoped Strictly (reads query) ∷ of_query fun)) }
{
    let first = strictly(reads(query));
    match fun {
        RayQueryFunction::Initialize {
            acceleration_structure,
            descriptor,
        } => user.take_slots(
            state,
            &[first, reads(acceleration_structure), reads(descriptor)],
        ),
        RayQueryFunction::GenerateIntersection { hit_t } => {
            user.take_slots(state, &[first, reads(hit_t)])
        }
        RayQueryFunction::Proceed { .. }
        | RayQueryFunction::ConfirmIntersection
        | RayQueryFunction::Terminate => user.take_slots(state, &[first]),
    }
}

fn with_ray_pipeline<S, A, T: OperandUser<S, A>>(
    user: &T,
    state: &mut S,
    fun: RayPipelineFunction,
) -> A
    ensures { T.does user.now state.old state.new result (these (of_pipeline fun)) }
{
    match fun {
        RayPipelineFunction::TraceRay {
            acceleration_structure,
            descriptor,
            payload,
        } => user.take_slots(
            state,
            &[
                reads(acceleration_structure),
                reads(descriptor),
                reads(payload),
            ],
        ),
    }
}

/// Visits the operands of a statement, a loop's condition among them. Operands of nested statements are not its own.
pub fn with_statement_operands<S, A, T: OperandUser<S, A>>(
    user: &T,
    state: &mut S,
    statement: &Statement,
) -> A
    ensures { T.does user.now state.old state.new result (statement_slots (statement_view statement.now)) }
{
    match statement {
        Statement::Emit(_)
        | Statement::Block(_)
        | Statement::Break
        | Statement::Continue
        | Statement::Kill
        | Statement::ControlBarrier(_)
        | Statement::MemoryBarrier(_) => user.take_slots(state, &[]),
        Statement::If { condition, .. } => user.take_slots(state, &[reads(*condition)]),
        Statement::Switch { selector, .. } => user.take_slots(state, &[reads(*selector)]),
        Statement::Loop { break_if, .. } => {
            user.take_slots(state, &[scoped(Scoping::Apart, reads_if(*break_if))])
        }
        Statement::Return { value } => user.take_slots(state, &[reads_if(*value)]),
        Statement::Call { arguments, .. } => {
            user.take_list(state, Scoping::Always, arguments.as_slice())
        }
        Statement::Store { pointer, value } => {
            user.take_slots(
                state,
                &[strictly(used(Usage::Write, *pointer)), reads(*value)],
            )
        }
        Statement::ImageStore {
            image,
            coordinate,
            array_index,
            value,
        } => user.take_slots(
            state,
            &[
                strictly(used(Usage::Write, *image)),
                reads(*coordinate),
                reads_if(*array_index),
                reads(*value),
            ],
        ),
        Statement::Atomic {
            pointer,
            fun,
            value,
            result: answer,
        } => {
            let compare = scoped(where_answered(*answer), reads_if(compared(*fun)));
            user.take_slots(
                state,
                &[used(Usage::ReadWrite, *pointer), reads(*value), compare],
            )
        }
        Statement::ImageAtomic {
            image,
            coordinate,
            array_index,
            fun,
            value,
        } => {
            let changed = strictly(used(Usage::Atomic, *image));
            let compare = strictly(reads_if(compared(*fun)));
            user.take_slots(
                state,
                &[
                    changed,
                    reads(*coordinate),
                    reads_if(*array_index),
                    reads(*value),
                    compare,
                ],
            )
        }
        Statement::WorkGroupUniformLoad { pointer, .. } => {
            user.take_slots(state, &[reads(*pointer)])
        }
        Statement::RayQuery { query, fun } => with_ray_query(user, state, *query, *fun),
        Statement::SubgroupBallot { predicate, .. } => {
            user.take_slots(state, &[reads_if(*predicate)])
        }
        Statement::SubgroupCollectiveOperation { argument, .. } => {
            user.take_slots(state, &[reads(*argument)])
        }
        Statement::SubgroupGather { mode, argument, .. } => {
            let index = gather_index(*mode);
            user.take_slots(state, &[reads_if(index), reads(*argument)])
        }
        Statement::CooperativeStore { target, block } => user.take_slots(
            state,
            &[
                reads(*target),
                strictly(used(Usage::Write, block.pointer)),
                strictly(reads(block.stride)),
            ],
        ),
        Statement::RayPipelineFunction(fun) => with_ray_pipeline(user, state, *fun),
    }
}
