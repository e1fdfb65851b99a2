//! Sizes and alignments of a module's types; which types are valid under given
//! capabilities, their flags, and which of them are host-shareable; the info of a
//! valid type, and type errors; the constness of a module's expressions.
//!
//! The names of the code are those of naga's `proc::layouter`, `proc::constant_evaluator` and `valid::type`. The functions of
//! [`tree_laws`], [`flag_laws`], [`tree_worked`] and [`flag_worked`] have no effect: their contracts are laws of the
//! definitions, and examples on small types.
#![tactic(auto)]

mod alignment;
mod constness;
mod error;
pub mod flag_laws;
pub mod flag_worked;
mod info;
pub mod laws;
mod layout;
mod layout_of;
mod layouter;
mod precede;
mod tracker;
pub mod tree_laws;
pub mod tree_worked;
mod type_error;
mod type_flags;

pub use alignment::Alignment;
pub use constness::ExpressionKind;
pub use error::{LayoutError, LayoutErrorInner};
pub use info::{LayoutCompatibility, TypeInfo};
pub use layout::TypeLayout;
pub use layouter::Layouter;
pub use precede::origins_precede;
pub use tracker::ExpressionKindTracker;
pub use type_error::{
    Disalignment, ImmediateError, LiteralError, TypeError, VaryingError, WidthError,
};
pub use type_flags::TypeFlags;
pub use typing_forms;
pub use typing_forms::ir_types;
