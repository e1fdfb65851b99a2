// The kinds of types, of their parts and of other items, with their tags.
ghost use Rattle.document_items.specs.found.Kinds.{storage_kinds, array_size_kinds, class_kinds, binding_kinds, inner_kinds, rule_kinds, predeclared_kinds, early_kinds};

use document_words::Word;

/// The address spaces with operands.
#[derive(Clone, Copy)]
pub enum StorageKind {
    Storage,
}

static STORAGE_KINDS: [(&str, StorageKind); 1] = [("Storage", StorageKind::Storage)];

impl Word for StorageKind {
    ghost table = { storage_kinds };

    fn table() -> &'static [(&'static str, StorageKind)] {
        &STORAGE_KINDS
    }
}

/// The kinds of array sizes.
#[derive(Clone, Copy)]
pub enum SizeKind {
    Constant,
    Pending,
    Dynamic,
}

static ARRAY_SIZE_KINDS: [(&str, SizeKind); 3] = [
    ("Constant", SizeKind::Constant),
    ("Pending", SizeKind::Pending),
    ("Dynamic", SizeKind::Dynamic),
];

impl Word for SizeKind {
    ghost table = { array_size_kinds };

    fn table() -> &'static [(&'static str, SizeKind)] {
        &ARRAY_SIZE_KINDS
    }
}

/// The classes of images.
#[derive(Clone, Copy)]
pub enum ClassKind {
    Sampled,
    Depth,
    External,
    Storage,
}

static CLASS_KINDS: [(&str, ClassKind); 4] = [
    ("Sampled", ClassKind::Sampled),
    ("Depth", ClassKind::Depth),
    ("External", ClassKind::External),
    ("Storage", ClassKind::Storage),
];

impl Word for ClassKind {
    ghost table = { class_kinds };

    fn table() -> &'static [(&'static str, ClassKind)] {
        &CLASS_KINDS
    }
}

/// The kinds of bindings.
#[derive(Clone, Copy)]
pub enum BindingKind {
    BuiltIn,
    Location,
}

static BINDING_KINDS: [(&str, BindingKind); 2] = [
    ("BuiltIn", BindingKind::BuiltIn),
    ("Location", BindingKind::Location),
];

impl Word for BindingKind {
    ghost table = { binding_kinds };

    fn table() -> &'static [(&'static str, BindingKind)] {
        &BINDING_KINDS
    }
}

/// The kinds of types.
#[derive(Clone, Copy)]
pub enum InnerKind {
    Scalar,
    Vector,
    Matrix,
    CooperativeMatrix,
    Atomic,
    Pointer,
    ValuePointer,
    Array,
    Struct,
    Image,
    Sampler,
    AccelerationStructure,
    RayQuery,
    BindingArray,
}

static INNER_KINDS: [(&str, InnerKind); 14] = [
    ("Scalar", InnerKind::Scalar),
    ("Vector", InnerKind::Vector),
    ("Matrix", InnerKind::Matrix),
    ("CooperativeMatrix", InnerKind::CooperativeMatrix),
    ("Atomic", InnerKind::Atomic),
    ("Pointer", InnerKind::Pointer),
    ("ValuePointer", InnerKind::ValuePointer),
    ("Array", InnerKind::Array),
    ("Struct", InnerKind::Struct),
    ("Image", InnerKind::Image),
    ("Sampler", InnerKind::Sampler),
    ("AccelerationStructure", InnerKind::AccelerationStructure),
    ("RayQuery", InnerKind::RayQuery),
    ("BindingArray", InnerKind::BindingArray),
];

impl Word for InnerKind {
    ghost table = { inner_kinds };

    fn table() -> &'static [(&'static str, InnerKind)] {
        &INNER_KINDS
    }
}

/// The kinds of triggering rules of filters.
#[derive(Clone, Copy)]
pub enum RuleKind {
    Standard,
    Unknown,
    User,
}

static RULE_KINDS: [(&str, RuleKind); 3] = [
    ("Standard", RuleKind::Standard),
    ("Unknown", RuleKind::Unknown),
    ("User", RuleKind::User),
];

impl Word for RuleKind {
    ghost table = { rule_kinds };

    fn table() -> &'static [(&'static str, RuleKind)] {
        &RULE_KINDS
    }
}

/// The kinds of predeclared types.
#[derive(Clone, Copy)]
pub enum PredeclaredKind {
    AtomicCompareExchangeWeakResult,
    ModfResult,
    FrexpResult,
}

static PREDECLARED_KINDS: [(&str, PredeclaredKind); 3] = [
    (
        "AtomicCompareExchangeWeakResult",
        PredeclaredKind::AtomicCompareExchangeWeakResult,
    ),
    ("ModfResult", PredeclaredKind::ModfResult),
    ("FrexpResult", PredeclaredKind::FrexpResult),
];

impl Word for PredeclaredKind {
    ghost table = { predeclared_kinds };

    fn table() -> &'static [(&'static str, PredeclaredKind)] {
        &PREDECLARED_KINDS
    }
}

/// The kinds of early depth tests.
#[derive(Clone, Copy)]
pub enum EarlyKind {
    Force,
    Allow,
}

static EARLY_KINDS: [(&str, EarlyKind); 2] = [
    ("Force", EarlyKind::Force),
    ("Allow", EarlyKind::Allow),
];

impl Word for EarlyKind {
    ghost table = { early_kinds };

    fn table() -> &'static [(&'static str, EarlyKind)] {
        &EARLY_KINDS
    }
}
