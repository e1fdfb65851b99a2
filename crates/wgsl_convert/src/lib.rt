//! Operands of WGSL expressions, and the lowering of constants to the IR with their expected types.
#![tactic(auto)]

mod columns;
mod concrete;
mod declared;
mod matrices;
mod values;
mod walk;
mod wanted;

pub use columns::{ColumnStep, by_columns};
pub use concrete::{UNFIT, concretized, literal_as, target_of, whole_as};
pub use declared::{Declared, FunctionEntry};
pub use matrices::of_matrices;
pub use values::{Operand, Value, handle_of, number_of};
pub use wanted::{known_element, known_for};
