//! The context in which a global variable is checked.

use ir_flags::Capabilities;
use ir_items::Module;
use typing_forms::Form;
use typing_layout::TypeInfo;

/// The context in which a global variable is checked.
#[derive(Clone, Copy)]
pub struct VariableContext<'a> {
    /// The enabled capabilities.
    pub capabilities: Capabilities,
    /// The module.
    pub module: &'a Module,
    /// The `TypeInfo`s of its types, by index.
    pub infos: &'a [TypeInfo],
}

/// The kind and the form of a variable's initializer.
#[derive(Clone, Copy)]
pub struct Initializer {
    /// Whether it is a const-expression or an override-expression.
    pub is_known: bool,
    /// The form of its type.
    pub form: Form,
}
