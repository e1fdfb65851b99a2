//! The typing of a shader's expressions, re-exported: type resolutions and canonical
//! forms of `typing_forms`, with properties and equivalence of types, layouts of types and
//! expression kinds of `typing_layout`, the rules of math functions and sets of scalars and of constructors of
//! `typing_rules`, overload sets of `typing_overloads`, the types of expressions of `typing_resolve`, which are those that
//! `spec_expressions` defines, those of all expressions of a list and comparing types of `typing_infos`, what the
//! analysis of a function requires of `typing_handles`, and the function infos of `typing_analysis`, with its errors.
//!
//! Nothing is defined here. A crate that uses the typing as a whole depends on this crate only.
#![tactic(auto)]

pub mod laws;

pub use ir_flags::{Capabilities, ShaderStages, SubgroupOperationSet, ValidationFlags};
pub use ir_kinds::{Scalar, ScalarKind};
pub use ir_types::TypeInner;
pub use spec_expressions::{
    ConclusionExt, ExpressionInfo, GlobalOrArgument, GlobalUse, MissingSpecialType, SamplingKey,
    SamplingPair, TypingFault, Uniformity, UniformityRequirements,
};
pub use typing_analysis::process_function;
pub use typing_errors::{
    AtomicError, CallError, ComposeError, ConstExpressionError, ExpressionError, FunctionError,
    LocalVariableError, ResolveError, ResolveRefusal, SubgroupError, UniformityDisruptor,
};
pub use typing_forms::{
    Form, IndexableLength, IndexableLengthError, MAX_TYPE_SIZE, ResolveArraySizeError, ScalarExt,
    ScalarKindExt, TypeInnerExt, TypeResolution, compare_types, conversion_rank, converted_rank,
    form_in, form_of, form_of_type, inner_of, types_go_back,
};
pub use typing_handles::{
    ArityFault, arities_match, arity_fault, callees_precede, filter_parents_precede,
    handles_in_range, operands_precede,
};
pub use typing_infos::{
    CompareTypes, FunctionInfo, SampledKeys, TypingRefusal, const_expression_types,
    process_const_expression, types_of,
};
pub use typing_layout::{
    Alignment, ExpressionKind, ExpressionKindTracker, LayoutError, LayoutErrorInner, Layouter,
    LiteralError, TypeLayout, WidthError, origins_precede,
};
pub use typing_overloads::{AnyOverloadSet, List, MathFunctionExt, OverloadSet, Regular};
pub use typing_resolve::ResolveContext;
pub use typing_rules::{
    Arguments, Conclusion, ConstructorSet, ConstructorSize, Members, OneBitsIter, Pattern, Rule,
    ScalarSet, ValueType,
};
