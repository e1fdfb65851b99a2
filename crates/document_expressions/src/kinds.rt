// The kinds of expressions, literals, sample levels and image queries, with their tags.
ghost use Rattle.document_expressions.specs.found.Kinds.{expression_kinds, literal_kinds, level_kinds, query_kinds};

use document_words::Word;

/// The kinds of expressions.
#[derive(Clone, Copy)]
pub enum ExpressionKind {
    Literal,
    Constant,
    Override,
    ZeroValue,
    Compose,
    Access,
    AccessIndex,
    Splat,
    Swizzle,
    FunctionArgument,
    GlobalVariable,
    LocalVariable,
    Load,
    ImageSample,
    ImageLoad,
    ImageQuery,
    Unary,
    Binary,
    Select,
    Derivative,
    Relational,
    Math,
    As,
    CallResult,
    AtomicResult,
    WorkGroupUniformLoadResult,
    ArrayLength,
    RayQueryVertexPositions,
    RayQueryProceedResult,
    RayQueryGetIntersection,
    SubgroupBallotResult,
    SubgroupOperationResult,
    CooperativeLoad,
    CooperativeMultiplyAdd,
}

// The most frequent kinds of shaders come first, because a lookup scans the table from the start.
static EXPRESSION_KINDS: [(&str, ExpressionKind); 34] = [
    ("Load", ExpressionKind::Load),
    ("Literal", ExpressionKind::Literal),
    ("AccessIndex", ExpressionKind::AccessIndex),
    ("Access", ExpressionKind::Access),
    ("Binary", ExpressionKind::Binary),
    ("Compose", ExpressionKind::Compose),
    ("GlobalVariable", ExpressionKind::GlobalVariable),
    ("LocalVariable", ExpressionKind::LocalVariable),
    ("FunctionArgument", ExpressionKind::FunctionArgument),
    ("CallResult", ExpressionKind::CallResult),
    ("Splat", ExpressionKind::Splat),
    ("Swizzle", ExpressionKind::Swizzle),
    ("Math", ExpressionKind::Math),
    ("Unary", ExpressionKind::Unary),
    ("Select", ExpressionKind::Select),
    ("As", ExpressionKind::As),
    ("ImageSample", ExpressionKind::ImageSample),
    ("Constant", ExpressionKind::Constant),
    ("ZeroValue", ExpressionKind::ZeroValue),
    ("ImageLoad", ExpressionKind::ImageLoad),
    ("ImageQuery", ExpressionKind::ImageQuery),
    ("Relational", ExpressionKind::Relational),
    ("Derivative", ExpressionKind::Derivative),
    ("AtomicResult", ExpressionKind::AtomicResult),
    ("Override", ExpressionKind::Override),
    ("ArrayLength", ExpressionKind::ArrayLength),
    (
        "WorkGroupUniformLoadResult",
        ExpressionKind::WorkGroupUniformLoadResult,
    ),
    (
        "RayQueryProceedResult",
        ExpressionKind::RayQueryProceedResult,
    ),
    (
        "RayQueryGetIntersection",
        ExpressionKind::RayQueryGetIntersection,
    ),
    (
        "RayQueryVertexPositions",
        ExpressionKind::RayQueryVertexPositions,
    ),
    ("SubgroupBallotResult", ExpressionKind::SubgroupBallotResult),
    (
        "SubgroupOperationResult",
        ExpressionKind::SubgroupOperationResult,
    ),
    ("CooperativeLoad", ExpressionKind::CooperativeLoad),
    (
        "CooperativeMultiplyAdd",
        ExpressionKind::CooperativeMultiplyAdd,
    ),
];

impl Word for ExpressionKind {
    ghost table = { expression_kinds };

    fn table() -> &'static [(&'static str, ExpressionKind)] {
        &EXPRESSION_KINDS
    }
}

/// The scalar types of literals.
#[derive(Clone, Copy)]
pub enum LiteralKind {
    Bool,
    I16,
    U16,
    I32,
    U32,
    I64,
    U64,
    F16,
    F32,
    F64,
    AbstractInt,
    AbstractFloat,
}

static LITERAL_KINDS: [(&str, LiteralKind); 12] = [
    ("f32", LiteralKind::F32),
    ("u32", LiteralKind::U32),
    ("i32", LiteralKind::I32),
    ("bool", LiteralKind::Bool),
    ("aint", LiteralKind::AbstractInt),
    ("afloat", LiteralKind::AbstractFloat),
    ("f16", LiteralKind::F16),
    ("f64", LiteralKind::F64),
    ("i64", LiteralKind::I64),
    ("u64", LiteralKind::U64),
    ("i16", LiteralKind::I16),
    ("u16", LiteralKind::U16),
];

impl Word for LiteralKind {
    ghost table = { literal_kinds };

    fn table() -> &'static [(&'static str, LiteralKind)] {
        &LITERAL_KINDS
    }
}

/// The kinds of sample levels.
#[derive(Clone, Copy)]
pub enum LevelKind {
    Auto,
    Zero,
    Exact,
    Bias,
    Gradient,
}

static LEVEL_KINDS: [(&str, LevelKind); 5] = [
    ("Auto", LevelKind::Auto),
    ("Zero", LevelKind::Zero),
    ("Exact", LevelKind::Exact),
    ("Bias", LevelKind::Bias),
    ("Gradient", LevelKind::Gradient),
];

impl Word for LevelKind {
    ghost table = { level_kinds };

    fn table() -> &'static [(&'static str, LevelKind)] {
        &LEVEL_KINDS
    }
}

/// The kinds of image queries.
#[derive(Clone, Copy)]
pub enum QueryKind {
    Size,
    NumLevels,
    NumLayers,
    NumSamples,
}

static QUERY_KINDS: [(&str, QueryKind); 4] = [
    ("Size", QueryKind::Size),
    ("NumLevels", QueryKind::NumLevels),
    ("NumLayers", QueryKind::NumLayers),
    ("NumSamples", QueryKind::NumSamples),
];

impl Word for QueryKind {
    ghost table = { query_kinds };

    fn table() -> &'static [(&'static str, QueryKind)] {
        &QUERY_KINDS
    }
}
