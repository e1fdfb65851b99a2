//! The plain enums and structs of the IR, which have no list, string or handle.
#![tactic(auto)]

mod bindings;
mod diagnostics;
mod images;
pub mod laws;
mod maths;
mod operators;
mod predeclared;
mod scalars;
mod spaces;
mod stages;
mod subgroups;
mod values;

pub use bindings::{Binding, BuiltIn, Interpolation, ResourceBinding, Sampling};
pub use diagnostics::{Severity, StandardFilterableTriggeringRule};
pub use images::{ImageClass, ImageDimension, StorageFormat};
pub use maths::MathFunction;
pub use operators::{
    BinaryOperator, DerivativeAxis, DerivativeControl, RelationalFunction, UnaryOperator,
};
pub use predeclared::PredeclaredType;
pub use scalars::{
    ABSTRACT_WIDTH, BOOL_WIDTH, Bytes, CooperativeRole, CooperativeSize, Scalar, ScalarKind,
    SwizzleComponent, VectorSize,
};
pub use spaces::AddressSpace;
pub use stages::{ConservativeDepth, EarlyDepthTest, MeshOutputTopology, ShaderStage};
pub use subgroups::{CollectiveOperation, Direction, SubgroupOperation};
pub use values::{Literal, SwitchValue};
