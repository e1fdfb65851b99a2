//! Items by their indices in arenas.

/// The kind of item that a handle refers to.
#[derive(Clone, Copy, PartialEq, Eq, Debug)]
pub enum ItemKind {
    /// A type of the module.
    Type,
    /// A constant of the module.
    Constant,
    /// An override of the module.
    Override,
    /// A global expression of the module, or an expression of a function.
    Expression,
    /// A global variable of the module.
    GlobalVariable,
    /// A local variable of a function.
    LocalVariable,
    /// A function of the module, not an entry point's.
    Function,
    /// A diagnostic filter node of the module.
    DiagnosticFilter,
}
