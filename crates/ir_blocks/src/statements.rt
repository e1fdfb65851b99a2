// Statements, blocks and switch cases.
ghost use Rattle.std.specs.Prelude.{◌≡◌, map, IfOk};
ghost use Rattle.ir_blocks.specs.found.View.{statement_view, block_view, case_view, statement_spans, block_spans, case_block_spans, HoldsNoBlock, IsAct, IsSharedAct};
ghost use Rattle.ir_blocks.specs.found.Spans.{no_block};

use crate::kept::KeptSpans;
use crate::operations::{AtomicFunction, GatherMode, RayPipelineFunction, RayQueryFunction};
use ir_flags::Barrier;
use ir_types::ir_arena::handle::Handle;
use ir_types::ir_arena::range::Range;
use ir_types::ir_kinds::{CollectiveOperation, SubgroupOperation, SwitchValue};
use ir_types::{CooperativeData, key};
use std::alloc::{AllocError, Global};

/// Statements in order, each with its span (naga's `Block`). Spans are stored only up to the last defined one.
#[cycle(body)]
#[derive(PartialEq, Debug, Drop)]
pub struct Block {
    pub(crate) body: Vec<Statement>,
    pub(crate) span_info: KeptSpans,
}

/// A case of a switch (naga's `SwitchCase`).
#[cycle(body)]
#[derive(PartialEq, Debug, Drop)]
pub struct SwitchCase {
    /// The value of the case.
    pub value: SwitchValue,
    /// The body of the case.
    pub body: Block,
    /// Whether control falls through to the next case.
    pub fall_through: bool,
}

/// The statements that are plain operations: no control flow, no `Emit`, no call. As a pattern for a `match`, so
/// that a new such statement is added in one place only.
#[macro_export]
macro_rules! plain_operation {
    () => {
        $crate::Statement::ControlBarrier(_)
            | $crate::Statement::MemoryBarrier(_)
            | $crate::Statement::Store { .. }
            | $crate::Statement::ImageStore { .. }
            | $crate::Statement::Atomic { .. }
            | $crate::Statement::ImageAtomic { .. }
            | $crate::Statement::WorkGroupUniformLoad { .. }
            | $crate::Statement::RayQuery { .. }
            | $crate::Statement::SubgroupBallot { .. }
            | $crate::Statement::SubgroupCollectiveOperation { .. }
            | $crate::Statement::SubgroupGather { .. }
            | $crate::Statement::CooperativeStore { .. }
            | $crate::Statement::RayPipelineFunction(_)
    };
}

/// A statement of a function body (naga's `Statement`).
#[cycle(body)]
#[derive(PartialEq, Debug, Drop)]
pub enum Statement {
    /// Emits a range of expressions.
    Emit(Range<key::Expression>),
    /// A nested block.
    Block(Block),
    /// A conditional.
    If {
        /// The condition, a boolean scalar.
        condition: Handle<key::Expression>,
        /// Taken if the condition is true.
        accept: Block,
        /// Taken if the condition is false.
        reject: Block,
    },
    /// A switch.
    Switch {
        /// The selector, an integer scalar.
        selector: Handle<key::Expression>,
        /// The cases in order, one of them the default.
        cases: Vec<SwitchCase>,
    },
    /// A loop: its body and then its continuing block, repeated until it is left.
    Loop {
        /// The loop body.
        body: Block,
        /// The continuing block, which runs after the body and upon `Continue`.
        continuing: Block,
        /// The condition that ends the loop after the continuing block if true: a boolean scalar.
        break_if: Option<Handle<key::Expression>>,
    },
    /// Leaves the innermost loop or switch.
    Break,
    /// Continues the innermost loop.
    Continue,
    /// Returns from the function.
    Return {
        /// The return value, if any.
        value: Option<Handle<key::Expression>>,
    },
    /// Discards the fragment.
    Kill,
    /// A control barrier: waits for the other invocations, and orders memory accesses.
    ControlBarrier(Barrier),
    /// A memory barrier: orders memory accesses.
    MemoryBarrier(Barrier),
    /// A store through a pointer.
    Store {
        /// The pointer.
        pointer: Handle<key::Expression>,
        /// The value.
        value: Handle<key::Expression>,
    },
    /// A store of a texel.
    ImageStore {
        /// The image.
        image: Handle<key::Expression>,
        /// The texel coordinate.
        coordinate: Handle<key::Expression>,
        /// The array layer.
        array_index: Option<Handle<key::Expression>>,
        /// The texel value.
        value: Handle<key::Expression>,
    },
    /// An atomic operation in memory.
    Atomic {
        /// The pointer to the atomic.
        pointer: Handle<key::Expression>,
        /// The function.
        fun: AtomicFunction,
        /// The operand.
        value: Handle<key::Expression>,
        /// The `AtomicResult` expression with the old value, if any.
        result: Option<Handle<key::Expression>>,
    },
    /// An atomic operation on a texel of a storage image.
    ImageAtomic {
        /// The image.
        image: Handle<key::Expression>,
        /// The texel coordinate.
        coordinate: Handle<key::Expression>,
        /// The array layer.
        array_index: Option<Handle<key::Expression>>,
        /// The function.
        fun: AtomicFunction,
        /// The operand.
        value: Handle<key::Expression>,
    },
    /// A uniform load of workgroup memory.
    WorkGroupUniformLoad {
        /// The pointer.
        pointer: Handle<key::Expression>,
        /// The `WorkGroupUniformLoadResult` expression with the value.
        result: Handle<key::Expression>,
    },
    /// A function call.
    Call {
        /// The callee.
        function: Handle<key::Function>,
        /// The arguments, in order.
        arguments: Vec<Handle<key::Expression>>,
        /// The `CallResult` expression with the return value, if any.
        result: Option<Handle<key::Expression>>,
    },
    /// A ray query statement.
    RayQuery {
        /// A pointer to the query.
        query: Handle<key::Expression>,
        /// The function.
        fun: RayQueryFunction,
    },
    /// A subgroup ballot.
    SubgroupBallot {
        /// The `SubgroupBallotResult` expression with the ballot.
        result: Handle<key::Expression>,
        /// The predicate of each invocation; `true` if `None`.
        predicate: Option<Handle<key::Expression>>,
    },
    /// A subgroup collective operation.
    SubgroupCollectiveOperation {
        /// The operation.
        op: SubgroupOperation,
        /// The scope: a reduction or a scan.
        collective_op: CollectiveOperation,
        /// The argument of each invocation.
        argument: Handle<key::Expression>,
        /// The `SubgroupOperationResult` expression with the result.
        result: Handle<key::Expression>,
    },
    /// A subgroup gather: each invocation reads the argument of another.
    SubgroupGather {
        /// The mode: which lane is read.
        mode: GatherMode,
        /// The argument of each invocation.
        argument: Handle<key::Expression>,
        /// The `SubgroupOperationResult` expression with the result.
        result: Handle<key::Expression>,
    },
    /// A store of a cooperative matrix.
    CooperativeStore {
        /// The matrix.
        target: Handle<key::Expression>,
        /// The memory (naga's `data`).
        block: CooperativeData,
    },
    /// A function of a ray tracing pipeline.
    RayPipelineFunction(RayPipelineFunction),
}

impl Block {
    /// An equal block in memory of its own. The error is out of memory.
    #[cycle(copies)]
    pub fn clone(&self, alloc: Global) -> Result<Block, AllocError>
        ensures statements { IfOk result (λ copy. block_view copy ≡ block_view self.now) }
        ensures spans { IfOk result (λ copy. block_spans copy ≡ block_spans self.now) }
    {
        let mut body = Vec::with_capacity(alloc, self.body.len())?;
        for statement in &self.body {
            body.push(statement.clone(alloc)?)?;
        }
        let span_info = self.span_info.clone(alloc)?;
        Ok(Block { body, span_info })
    }
}

impl SwitchCase {
    /// An equal case in memory of its own. The error is out of memory.
    #[cycle(copies)]
    pub fn clone(&self, alloc: Global) -> Result<SwitchCase, AllocError>
        ensures case { IfOk result (λ copy. case_view copy ≡ case_view self.now) }
        ensures spans { IfOk result (λ copy. case_block_spans copy ≡ case_block_spans self.now) }
    {
        Ok(SwitchCase {
            value: self.value,
            body: self.body.clone(alloc)?,
            fall_through: self.fall_through,
        })
    }
}

impl Statement {
    /// An equal statement in memory of its own. The error is out of memory.
    #[cycle(copies)]
    pub fn clone(&self, alloc: Global) -> Result<Statement, AllocError>
        ensures statement { IfOk result (λ copy. statement_view copy ≡ statement_view self.now) }
        ensures spans { IfOk result (λ copy. statement_spans copy ≡ statement_spans self.now) }
    {
        match self {
            Statement::Block(block) => Ok(Statement::Block(block.clone(alloc)?)),
            Statement::If {
                condition,
                accept,
                reject,
            } => Ok(Statement::If {
                condition: *condition,
                accept: accept.clone(alloc)?,
                reject: reject.clone(alloc)?,
            }),
            Statement::Switch { selector, cases } => Ok(Statement::Switch {
                selector: *selector,
                cases: clone_cases(alloc, cases)?,
            }),
            Statement::Loop {
                body,
                continuing,
                break_if,
            } => Ok(Statement::Loop {
                body: body.clone(alloc)?,
                continuing: continuing.clone(alloc)?,
                break_if: *break_if,
            }),
            step => step.clone_step(alloc),
        }
    }

    // An equal statement, if it has no nested block.
    fn clone_step(&self, alloc: Global) -> Result<Statement, AllocError>
        requires { HoldsNoBlock (statement_view self.now) }
        ensures statement { IfOk result (λ copy. statement_view copy ≡ statement_view self.now) }
        ensures spans { IfOk result (λ copy. statement_spans copy ≡ no_block) }
    {
        match self {
            Statement::Emit(range) => Ok(Statement::Emit(*range)),
            Statement::Break => Ok(Statement::Break),
            Statement::Continue => Ok(Statement::Continue),
            Statement::Return { value } => Ok(Statement::Return { value: *value }),
            Statement::Kill => Ok(Statement::Kill),
            Statement::Call {
                function,
                arguments,
                result,
            } => Ok(Statement::Call {
                function: *function,
                arguments: Vec::from_slice(alloc, arguments)?,
                result: *result,
            }),
            operation => Ok(operation.copy_operation()),
        }
    }

    // An equal statement, if it is a plain operation.
    fn copy_operation(&self) -> Statement
        requires { IsAct (statement_view self.now) }
        ensures statement { statement_view result ≡ statement_view self.now }
        ensures spans { statement_spans result ≡ no_block }
    {
        match *self {
            Statement::ControlBarrier(barrier) => Statement::ControlBarrier(barrier),
            Statement::MemoryBarrier(barrier) => Statement::MemoryBarrier(barrier),
            Statement::Store { pointer, value } => Statement::Store { pointer, value },
            Statement::ImageStore {
                image,
                coordinate,
                array_index,
                value,
            } => Statement::ImageStore {
                image,
                coordinate,
                array_index,
                value,
            },
            Statement::Atomic {
                pointer,
                fun,
                value,
                result: answer,
            } => Statement::Atomic {
                pointer,
                fun,
                value,
                result: answer,
            },
            Statement::ImageAtomic {
                image,
                coordinate,
                array_index,
                fun,
                value,
            } => Statement::ImageAtomic {
                image,
                coordinate,
                array_index,
                fun,
                value,
            },
            Statement::WorkGroupUniformLoad {
                pointer,
                result: answer,
            } => Statement::WorkGroupUniformLoad {
                pointer,
                result: answer,
            },
            _ => self.copy_shared_operation(),
        }
    }

    // An equal statement of ray queries, subgroups, cooperative matrices or ray tracing pipelines.
    fn copy_shared_operation(&self) -> Statement
        requires { IsSharedAct (statement_view self.now) }
        ensures statement { statement_view result ≡ statement_view self.now }
        ensures spans { statement_spans result ≡ no_block }
    {
        match *self {
            Statement::RayQuery { query, fun } => Statement::RayQuery { query, fun },
            Statement::SubgroupBallot {
                result: answer,
                predicate,
            } => Statement::SubgroupBallot {
                result: answer,
                predicate,
            },
            Statement::SubgroupCollectiveOperation {
                op,
                collective_op,
                argument,
                result: answer,
            } => Statement::SubgroupCollectiveOperation {
                op,
                collective_op,
                argument,
                result: answer,
            },
            Statement::SubgroupGather {
                mode,
                argument,
                result: answer,
            } => Statement::SubgroupGather {
                mode,
                argument,
                result: answer,
            },
            Statement::CooperativeStore { target, block } => Statement::CooperativeStore {
                target,
                block,
            },
            Statement::RayPipelineFunction(fun) => Statement::RayPipelineFunction(fun),
            _ => unreachable!(),
        }
    }
}

#[cycle(copies)]
fn clone_cases(alloc: Global, cases: &[SwitchCase]) -> Result<Vec<SwitchCase>, AllocError>
    ensures cases { IfOk result (λ copies. map case_view copies.items ≡ map case_view cases.now) }
    ensures spans { IfOk result (λ copies. map case_block_spans copies.items ≡ map case_block_spans cases.now) }
{
    let mut copies = Vec::with_capacity(alloc, cases.len())?;
    for case in cases {
        copies.push(case.clone(alloc)?)?;
    }
    Ok(copies)
}
