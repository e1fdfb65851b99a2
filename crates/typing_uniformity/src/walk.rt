//! The walk of a body.

ghost use Rattle.std.specs.Prelude.{◌≡◌, ◌||◌, false, is_some, option_map, map};
ghost use Rattle.ir_blocks.specs.found.View.{statement_view, block_view, case_view, cases_of};
ghost use Rattle.spec_expressions.specs.judged.Disruption.{ends_in, ends_at, ends_in_cases};
ghost use Rattle.spec_expressions.specs.found.Found.{first_required, where_disrupted, required_in, required_at, required_in_cases};
ghost use Rattle.spec_expressions.specs.judged.Uniformity.{Required};
ghost use Rattle.spec_expressions.specs.declared.uniformity.TheConstants.UniformityRequirements.{WORK_GROUP_BARRIER};
ghost use Rattle.typing_uniformity.specs.Requiring.{varies_of, look_of, required_view};

use crate::body_fault::NonUniform;
use crate::requiring::Requiring;
use ir_arena::handle::Handle;
use ir_items::{Block, Statement, SwitchCase, key};
use spec_expressions::UniformityRequirements;
use typing_errors::UniformityDisruptor;

// The result of walking a part of a body: its first disruptor, if any, and its first fault.
#[derive(Clone, Copy)]
pub(crate) struct Seen {
    pub(crate) end: Option<UniformityDisruptor>,
    pub(crate) fault: Option<NonUniform>,
}

// The first of two causes of non-uniform control flow.
fn either(
    a: &Option<UniformityDisruptor>,
    b: &Option<UniformityDisruptor>,
) -> Option<UniformityDisruptor>
    ensures { is_some result ≡ (is_some a.now || is_some b.now) }
{
    match a {
        Some(disruptor) => Some(*disruptor),
        None => *b,
    }
}

fn first(a: &Option<NonUniform>, b: &Option<NonUniform>) -> Option<NonUniform>
    ensures { option_map required_view result ≡ first_required (option_map required_view a.now) (option_map required_view b.now) }
{
    match a {
        Some(fault) => Some(*fault),
        None => *b,
    }
}

// The combined result of two parts.
fn both(a: &Seen, b: &Seen) -> Seen
    ensures ends { is_some result.end ≡ (is_some a.now.end || is_some b.now.end) }
    ensures fault { option_map required_view result.fault ≡ first_required (option_map required_view a.now.fault) (option_map required_view b.now.fault) }
{
    Seen {
        end: either(&a.end, &b.end),
        fault: first(&a.fault, &b.fault),
    }
}

// A return or discard is a disruptor only in non-uniform control flow.
fn ended(disruptor: &Option<UniformityDisruptor>, end: UniformityDisruptor) -> Seen
    ensures ends { is_some result.end ≡ is_some disruptor.now }
    ensures fault { option_map required_view result.fault ≡ None }
{
    match disruptor {
        Some(_) => Seen {
            end: Some(end),
            fault: None,
        },
        None => nothing(),
    }
}

// A uniform load is a fault if control flow is non-uniform.
fn loaded(
    answer: Handle<key::Expression>,
    disruptor: &Option<UniformityDisruptor>,
) -> Option<NonUniform>
    ensures { option_map required_view result ≡ where_disrupted (is_some disruptor.now) (Some (record { requirement = WORK_GROUP_BARRIER.0; expression = answer })) }
{
    match disruptor {
        Some(disruptor) => Some(NonUniform {
            requirements: UniformityRequirements::WORK_GROUP_BARRIER,
            expression: answer,
            disruptor: *disruptor,
        }),
        None => None,
    }
}

// No disruptor and no fault.
fn nothing() -> Seen
    ensures ends { is_some result.end ≡ false }
    ensures fault { option_map required_view result.fault ≡ None }
{
    Seen {
        end: None,
        fault: None,
    }
}

// A fault, if there is one, and no disruptor.
fn alone(fault: Option<NonUniform>) -> Seen
    ensures ends { is_some result.end ≡ false }
    ensures fault { result.fault ≡ fault }
{
    Seen { end: None, fault }
}

#[cycle(walk)]
pub(crate) fn seen_in(
    facts: &Requiring<'_>,
    disruptor: &Option<UniformityDisruptor>,
    block: &Block,
) -> Seen
    ensures ends { is_some result.end ≡ ends_in (varies_of facts.now.uniformities.now) (is_some disruptor.now) (block_view block.now) }
    ensures fault { option_map required_view result.fault ≡ required_in (varies_of facts.now.uniformities.now) (look_of facts.now.uniformities.now facts.now.next.now) (is_some disruptor.now) (block_view block.now) }
{
    let mut current = *disruptor;
    let mut seen = nothing();
    for statement in block.as_slice() {
        let one = seen_at(facts, &current, statement);
        current = either(&current, &one.end);
        seen = both(&seen, &one);
    }
    seen
}

#[cycle(walk)]
fn seen_in_cases(
    facts: &Requiring<'_>,
    disruptor: &Option<UniformityDisruptor>,
    cases: &[SwitchCase],
) -> Seen
    ensures ends { is_some result.end ≡ ends_in_cases (varies_of facts.now.uniformities.now) (is_some disruptor.now) (cases_of (map case_view cases.now)) }
    ensures fault { option_map required_view result.fault ≡ required_in_cases (varies_of facts.now.uniformities.now) (look_of facts.now.uniformities.now facts.now.next.now) (is_some disruptor.now) (cases_of (map case_view cases.now)) }
{
    let mut seen = nothing();
    for case in cases {
        let one = seen_in(facts, disruptor, &case.body);
        seen = both(&seen, &one);
    }
    seen
}

#[cycle(walk)]
fn seen_at(
    facts: &Requiring<'_>,
    disruptor: &Option<UniformityDisruptor>,
    statement: &Statement,
) -> Seen
    ensures ends { is_some result.end ≡ ends_at (varies_of facts.now.uniformities.now) (is_some disruptor.now) (statement_view statement.now) }
    ensures fault { option_map required_view result.fault ≡ required_at (varies_of facts.now.uniformities.now) (look_of facts.now.uniformities.now facts.now.next.now) (is_some disruptor.now) (statement_view statement.now) }
{
    match statement {
        Statement::Emit(range) => {
            let bounds = range.index_range();
            alone(facts.emitted(bounds.start, bounds.end, disruptor))
        }
        Statement::Block(block) => seen_in(facts, disruptor, block),
        Statement::If {
            condition,
            accept,
            reject,
        } => {
            let choice = facts.choice(*condition);
            let inner = either(disruptor, &choice);
            let accepting = seen_in(facts, &inner, accept);
            let rejecting = seen_in(facts, &inner, reject);
            both(&accepting, &rejecting)
        }
        Statement::Switch { selector, cases } => {
            let choice = facts.choice(*selector);
            let inner = either(disruptor, &choice);
            seen_in_cases(facts, &inner, cases)
        }
        Statement::Loop {
            body,
            continuing,
            ..
        } => {
            let loop_body = seen_in(facts, disruptor, body);
            let after = either(disruptor, &loop_body.end);
            let again = seen_in(facts, &after, continuing);
            both(&loop_body, &again)
        }
        Statement::Return { .. } => ended(disruptor, UniformityDisruptor::Return),
        Statement::Kill => ended(disruptor, UniformityDisruptor::Discard),
        Statement::WorkGroupUniformLoad { result: answer, .. } => alone(loaded(*answer, disruptor)),
        Statement::Break
        | Statement::Continue
        | Statement::ControlBarrier(_)
        | Statement::MemoryBarrier(_)
        | Statement::Store { .. }
        | Statement::ImageStore { .. }
        | Statement::Atomic { .. }
        | Statement::ImageAtomic { .. }
        | Statement::Call { .. }
        | Statement::RayQuery { .. }
        | Statement::SubgroupBallot { .. }
        | Statement::SubgroupCollectiveOperation { .. }
        | Statement::SubgroupGather { .. }
        | Statement::CooperativeStore { .. }
        | Statement::RayPipelineFunction(_) => nothing(),
    }
}
