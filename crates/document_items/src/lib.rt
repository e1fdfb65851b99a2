//! The JSON forms of a document's items other than expressions, statements and functions.
#![tactic(auto)]

mod bindings;
mod entry;
mod filters;
mod globals;
mod kinds;
mod spaces;
mod special;
mod type_list;
mod types;

pub use bindings::{BindingForm, BuiltInRow, ResourceForm};
pub use entry::{EarlyForm, MeshForm, SizesForm, StageForm};
pub use filters::{FilterForm, FiltersForm, RuleForm};
pub use globals::{ConstantForm, GlobalForm, OverrideForm};
pub use spaces::{ArraySizeForm, ClassForm, Positive, SpaceForm, StorageForm};
pub use special::{PairForm, PairsForm, PredeclaredForm, SpecialForm};
pub use types::{InnerForm, MemberForm, TypeForm};
