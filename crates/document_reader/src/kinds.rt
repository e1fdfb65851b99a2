// The kinds of statements and of their parts, with their tags.
ghost use Rattle.document_reader.specs.found.Kinds.{value_kinds, atomic_kinds, gather_kinds, ray_query_kinds, pipeline_kinds, statement_kinds};

use document_words::Word;

/// The kinds of switch values.
#[derive(Clone, Copy)]
pub enum ValueKind {
    I32,
    U32,
    Default,
}

static VALUE_KINDS: [(&str, ValueKind); 3] = [
    ("I32", ValueKind::I32),
    ("U32", ValueKind::U32),
    ("Default", ValueKind::Default),
];

impl Word for ValueKind {
    ghost table = { value_kinds };

    fn table() -> &'static [(&'static str, ValueKind)] {
        &VALUE_KINDS
    }
}

/// The kinds of atomic functions.
#[derive(Clone, Copy)]
pub enum AtomicKind {
    Add,
    Subtract,
    And,
    ExclusiveOr,
    InclusiveOr,
    Min,
    Max,
    Exchange,
}

static ATOMIC_KINDS: [(&str, AtomicKind); 8] = [
    ("Add", AtomicKind::Add),
    ("Subtract", AtomicKind::Subtract),
    ("And", AtomicKind::And),
    ("ExclusiveOr", AtomicKind::ExclusiveOr),
    ("InclusiveOr", AtomicKind::InclusiveOr),
    ("Min", AtomicKind::Min),
    ("Max", AtomicKind::Max),
    ("Exchange", AtomicKind::Exchange),
];

impl Word for AtomicKind {
    ghost table = { atomic_kinds };

    fn table() -> &'static [(&'static str, AtomicKind)] {
        &ATOMIC_KINDS
    }
}

/// The gather modes.
#[derive(Clone, Copy)]
pub enum GatherKind {
    BroadcastFirst,
    Broadcast,
    Shuffle,
    ShuffleDown,
    ShuffleUp,
    ShuffleXor,
    QuadBroadcast,
    QuadSwap,
}

static GATHER_KINDS: [(&str, GatherKind); 8] = [
    ("BroadcastFirst", GatherKind::BroadcastFirst),
    ("Broadcast", GatherKind::Broadcast),
    ("Shuffle", GatherKind::Shuffle),
    ("ShuffleDown", GatherKind::ShuffleDown),
    ("ShuffleUp", GatherKind::ShuffleUp),
    ("ShuffleXor", GatherKind::ShuffleXor),
    ("QuadBroadcast", GatherKind::QuadBroadcast),
    ("QuadSwap", GatherKind::QuadSwap),
];

impl Word for GatherKind {
    ghost table = { gather_kinds };

    fn table() -> &'static [(&'static str, GatherKind)] {
        &GATHER_KINDS
    }
}

/// The ray query functions.
#[derive(Clone, Copy)]
pub enum RayQueryKind {
    Initialize,
    Proceed,
    GenerateIntersection,
    ConfirmIntersection,
    Terminate,
}

static RAY_QUERY_KINDS: [(&str, RayQueryKind); 5] = [
    ("Initialize", RayQueryKind::Initialize),
    ("Proceed", RayQueryKind::Proceed),
    ("GenerateIntersection", RayQueryKind::GenerateIntersection),
    ("ConfirmIntersection", RayQueryKind::ConfirmIntersection),
    ("Terminate", RayQueryKind::Terminate),
];

impl Word for RayQueryKind {
    ghost table = { ray_query_kinds };

    fn table() -> &'static [(&'static str, RayQueryKind)] {
        &RAY_QUERY_KINDS
    }
}

/// The ray pipeline functions.
#[derive(Clone, Copy)]
pub enum PipelineKind {
    TraceRay,
}

static PIPELINE_KINDS: [(&str, PipelineKind); 1] = [("TraceRay", PipelineKind::TraceRay)];

impl Word for PipelineKind {
    ghost table = { pipeline_kinds };

    fn table() -> &'static [(&'static str, PipelineKind)] {
        &PIPELINE_KINDS
    }
}

/// The kinds of statements.
#[derive(Clone, Copy)]
pub enum StatementKind {
    Emit,
    Block,
    If,
    Switch,
    Loop,
    Break,
    Continue,
    Return,
    Kill,
    ControlBarrier,
    MemoryBarrier,
    Store,
    ImageStore,
    Atomic,
    ImageAtomic,
    WorkGroupUniformLoad,
    Call,
    RayQuery,
    SubgroupBallot,
    SubgroupCollectiveOperation,
    SubgroupGather,
    CooperativeStore,
    RayPipelineFunction,
}

static STATEMENT_KINDS: [(&str, StatementKind); 23] = [
    ("Emit", StatementKind::Emit),
    ("Store", StatementKind::Store),
    ("If", StatementKind::If),
    ("Return", StatementKind::Return),
    ("Call", StatementKind::Call),
    ("Block", StatementKind::Block),
    ("Break", StatementKind::Break),
    ("Loop", StatementKind::Loop),
    ("Switch", StatementKind::Switch),
    ("Continue", StatementKind::Continue),
    ("Kill", StatementKind::Kill),
    ("ControlBarrier", StatementKind::ControlBarrier),
    ("MemoryBarrier", StatementKind::MemoryBarrier),
    ("ImageStore", StatementKind::ImageStore),
    ("Atomic", StatementKind::Atomic),
    ("ImageAtomic", StatementKind::ImageAtomic),
    ("WorkGroupUniformLoad", StatementKind::WorkGroupUniformLoad),
    ("RayQuery", StatementKind::RayQuery),
    ("SubgroupBallot", StatementKind::SubgroupBallot),
    (
        "SubgroupCollectiveOperation",
        StatementKind::SubgroupCollectiveOperation,
    ),
    ("SubgroupGather", StatementKind::SubgroupGather),
    ("CooperativeStore", StatementKind::CooperativeStore),
    ("RayPipelineFunction", StatementKind::RayPipelineFunction),
];

impl Word for StatementKind {
    ghost table = { statement_kinds };

    fn table() -> &'static [(&'static str, StatementKind)] {
        &STATEMENT_KINDS
    }
}
