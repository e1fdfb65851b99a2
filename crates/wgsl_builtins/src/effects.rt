// Built-in functions for atomics, workgroup memory, subgroups, ray queries and cooperative matrices, by name.

use crate::rays::{RayFunction, ray_function_of};
use ir_kinds::{CollectiveOperation, Direction, SubgroupOperation};
use wgsl_words::find;

/// A read-modify-write operation on an atomic.
#[derive(Clone, Copy, PartialEq, Eq)]
pub enum AtomicWord {
    /// `atomicAdd`.
    Add,
    /// `atomicSub`.
    Subtract,
    /// `atomicMax`.
    Max,
    /// `atomicMin`.
    Min,
    /// `atomicAnd`.
    And,
    /// `atomicOr`.
    Or,
    /// `atomicXor`.
    Xor,
    /// `atomicExchange`.
    Exchange,
}

/// A read of another invocation's value, by index, delta or mask.
#[derive(Clone, Copy, PartialEq, Eq)]
pub enum GatherWord {
    /// `subgroupBroadcast`.
    Broadcast,
    /// `subgroupShuffle`.
    Shuffle,
    /// `subgroupShuffleUp`.
    ShuffleUp,
    /// `subgroupShuffleDown`.
    ShuffleDown,
    /// `subgroupShuffleXor`.
    ShuffleXor,
    /// `quadBroadcast`.
    QuadBroadcast,
}

/// A built-in function for atomics, workgroup memory, subgroups, ray queries or cooperative matrices.
#[derive(Clone, Copy, PartialEq, Eq)]
pub enum EffectWord {
    /// `atomicLoad`.
    AtomicLoad,
    /// `atomicStore`.
    AtomicStore,
    /// A read-modify-write operation.
    Atomic(AtomicWord),
    /// `atomicCompareExchangeWeak`.
    CompareExchange,
    /// `workgroupUniformLoad`.
    UniformLoad,
    /// A reduction or a scan of a subgroup.
    Collective(SubgroupOperation, CollectiveOperation),
    /// `subgroupBallot`.
    Ballot,
    /// `subgroupBroadcastFirst`.
    BroadcastFirst,
    /// A read of another invocation's value.
    Gather(GatherWord),
    /// `quadSwapX`, `quadSwapY` or `quadSwapDiagonal`.
    QuadSwap(Direction),
    /// A ray query function.
    Ray(RayFunction),
    /// `coopStore`, or `coopStoreT` of rows.
    CooperativeStore(bool),
    /// `coopMultiplyAdd`.
    CooperativeMultiplyAdd,
}

impl EffectWord {
    /// Whether a call may be a statement: its result may be dropped (atomic functions), or there is none.
    pub fn may_be_dropped(self) -> bool {
        match self {
            EffectWord::AtomicLoad
            | EffectWord::AtomicStore
            | EffectWord::Atomic(_)
            | EffectWord::CompareExchange
            | EffectWord::CooperativeStore(_) => true,
            EffectWord::Ray(function) => !function.has_value(),
            _ => false,
        }
    }
}

static EFFECTS: [(&str, EffectWord); 39] = [
    ("atomicLoad", EffectWord::AtomicLoad),
    ("atomicStore", EffectWord::AtomicStore),
    ("atomicAdd", EffectWord::Atomic(AtomicWord::Add)),
    ("atomicSub", EffectWord::Atomic(AtomicWord::Subtract)),
    ("atomicMax", EffectWord::Atomic(AtomicWord::Max)),
    ("atomicMin", EffectWord::Atomic(AtomicWord::Min)),
    ("atomicAnd", EffectWord::Atomic(AtomicWord::And)),
    ("atomicOr", EffectWord::Atomic(AtomicWord::Or)),
    ("atomicXor", EffectWord::Atomic(AtomicWord::Xor)),
    ("atomicExchange", EffectWord::Atomic(AtomicWord::Exchange)),
    ("atomicCompareExchangeWeak", EffectWord::CompareExchange),
    ("workgroupUniformLoad", EffectWord::UniformLoad),
    (
        "subgroupAdd",
        EffectWord::Collective(SubgroupOperation::Add, CollectiveOperation::Reduce),
    ),
    (
        "subgroupExclusiveAdd",
        EffectWord::Collective(SubgroupOperation::Add, CollectiveOperation::ExclusiveScan),
    ),
    (
        "subgroupInclusiveAdd",
        EffectWord::Collective(SubgroupOperation::Add, CollectiveOperation::InclusiveScan),
    ),
    (
        "subgroupMul",
        EffectWord::Collective(SubgroupOperation::Mul, CollectiveOperation::Reduce),
    ),
    (
        "subgroupExclusiveMul",
        EffectWord::Collective(SubgroupOperation::Mul, CollectiveOperation::ExclusiveScan),
    ),
    (
        "subgroupInclusiveMul",
        EffectWord::Collective(SubgroupOperation::Mul, CollectiveOperation::InclusiveScan),
    ),
    (
        "subgroupMax",
        EffectWord::Collective(SubgroupOperation::Max, CollectiveOperation::Reduce),
    ),
    (
        "subgroupMin",
        EffectWord::Collective(SubgroupOperation::Min, CollectiveOperation::Reduce),
    ),
    (
        "subgroupAnd",
        EffectWord::Collective(SubgroupOperation::And, CollectiveOperation::Reduce),
    ),
    (
        "subgroupOr",
        EffectWord::Collective(SubgroupOperation::Or, CollectiveOperation::Reduce),
    ),
    (
        "subgroupXor",
        EffectWord::Collective(SubgroupOperation::Xor, CollectiveOperation::Reduce),
    ),
    (
        "subgroupAll",
        EffectWord::Collective(SubgroupOperation::All, CollectiveOperation::Reduce),
    ),
    (
        "subgroupAny",
        EffectWord::Collective(SubgroupOperation::Any, CollectiveOperation::Reduce),
    ),
    ("subgroupBallot", EffectWord::Ballot),
    ("subgroupBroadcastFirst", EffectWord::BroadcastFirst),
    (
        "subgroupBroadcast",
        EffectWord::Gather(GatherWord::Broadcast),
    ),
    ("subgroupShuffle", EffectWord::Gather(GatherWord::Shuffle)),
    (
        "subgroupShuffleUp",
        EffectWord::Gather(GatherWord::ShuffleUp),
    ),
    (
        "subgroupShuffleDown",
        EffectWord::Gather(GatherWord::ShuffleDown),
    ),
    (
        "subgroupShuffleXor",
        EffectWord::Gather(GatherWord::ShuffleXor),
    ),
    (
        "quadBroadcast",
        EffectWord::Gather(GatherWord::QuadBroadcast),
    ),
    ("quadSwapX", EffectWord::QuadSwap(Direction::X)),
    ("quadSwapY", EffectWord::QuadSwap(Direction::Y)),
    (
        "quadSwapDiagonal",
        EffectWord::QuadSwap(Direction::Diagonal),
    ),
    ("coopStore", EffectWord::CooperativeStore(false)),
    ("coopStoreT", EffectWord::CooperativeStore(true)),
    ("coopMultiplyAdd", EffectWord::CooperativeMultiplyAdd),
];

/// The built-in function of this group with this name.
pub fn effect_of(word: &[u8]) -> Option<EffectWord> {
    match ray_function_of(word) {
        Some(function) => Some(EffectWord::Ray(function)),
        None => find(&EFFECTS, word),
    }
}
