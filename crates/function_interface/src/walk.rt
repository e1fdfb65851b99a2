//! Which stages may run all statements of a body.

ghost use Rattle.std.specs.Prelude.{◌≡◌, ◌↔◌, ℕ, map};
ghost use Rattle.ir_blocks.specs.judged.Plain.{PlainStatement};
ghost use Rattle.ir_blocks.specs.found.View.{statement_view, block_view, case_view, cases_of};
ghost use Rattle.ir_flags.specs.Sets.{Has};
ghost use Rattle.function_interface.specs.Bodies.{MayRun};
ghost use Rattle.function_interface.specs.Left.{left_in, left_within, left_in_cases};

use crate::statements::statement_stages;
use bitflags::Flags;
use ir_blocks::{Block, Statement, SwitchCase, plain_operation};
use ir_flags::ShaderStages;
use module_context::CalleeStages;

// Which stages may run a statement, without its inner blocks. The walk is generic over it.
trait RunBy {
    // The stages, as bits.
    ghost runs: { Self → PlainStatement → ℕ };

    fn stages(&self, statement: &Statement) -> ShaderStages
        ensures { result.0 ≡ runs self.now (statement_view statement.now) };
}

// Those of a statement of a module's function.
#[derive(Drop)]
struct StatementStages<'a, C> {
    subgroup_stages: ShaderStages,
    callees: &'a C,
}

impl<C: CalleeStages> RunBy for StatementStages<'_, C> {
    ghost use Rattle.spec_statements.specs.judged.Stages.{statement_stages};

    ghost runs = { λ r u. (statement_stages r.subgroup_stages (C.stages r.callees.now) u).0 };

    fn stages(&self, statement: &Statement) -> ShaderStages {
        statement_stages(self.subgroup_stages, self.callees, statement)
    }
}

// The stages of these that may run all statements of a block, at any depth.
#[cycle(walk)]
fn left_in<R: RunBy>(rule: &R, stages: ShaderStages, block: &Block) -> ShaderStages
    ensures { result.0 ≡ left_in (R.runs rule.now) stages.0 (block_view block.now) }
{
    let mut left = stages;
    for statement in block.as_slice() {
        let own = rule.stages(statement);
        let shared = ShaderStages(left.0 & own.0);
        left = left_within(rule, shared, statement);
    }
    left
}

// The stages of these that may run the inner blocks of a statement.
#[cycle(walk)]
fn left_within<R: RunBy>(rule: &R, stages: ShaderStages, statement: &Statement) -> ShaderStages
    ensures { result.0 ≡ left_within (R.runs rule.now) stages.0 (statement_view statement.now) }
{
    match statement {
        Statement::Block(block) => left_in(rule, stages, block),
        Statement::If { accept, reject, .. } => {
            let accepting = left_in(rule, stages, accept);
            left_in(rule, accepting, reject)
        }
        Statement::Switch { cases, .. } => left_in_cases(rule, stages, cases),
        Statement::Loop {
            body,
            continuing,
            ..
        } => {
            let first = left_in(rule, stages, body);
            left_in(rule, first, continuing)
        }
        Statement::Emit(_)
        | Statement::Break
        | Statement::Continue
        | Statement::Return { .. }
        | Statement::Kill
        | Statement::Call { .. }
        | plain_operation!() => stages,
    }
}

#[cycle(walk)]
fn left_in_cases<R: RunBy>(rule: &R, stages: ShaderStages, cases: &[SwitchCase]) -> ShaderStages
    ensures { result.0 ≡ left_in_cases (R.runs rule.now) stages.0 (cases_of (map case_view cases.now)) }
{
    let mut left = stages;
    for case in cases {
        left = left_in(rule, left, &case.body);
    }
    left
}

/// The stages that may run each statement of a body, at any depth (the `stages` returned by naga's `validate_block`).
/// `subgroup_stages` are those with subgroup operations. It allocates nothing.
pub fn stages_of<C: CalleeStages>(
    body: &Block,
    subgroup_stages: ShaderStages,
    callees: &C,
) -> ShaderStages
    ensures { (stage : ℕ) → Has result.0 stage ↔ MayRun subgroup_stages (C.stages callees.now) (block_view body.now) stage }
{
    let rule = StatementStages {
        subgroup_stages,
        callees,
    };
    left_in(&rule, ShaderStages::all(), body)
}
