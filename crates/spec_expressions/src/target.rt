//! What handles and ranges refer to.

use ir_arena::handle::Handle;
use typing_layout::ir_types::key;

/// The item that a handle refers to, other than an expression of the list that contains it.
#[derive(Clone, Copy, Debug)]
pub enum Target {
    /// A type of the module.
    Type(Handle<key::IrType>),
    /// A constant of the module.
    Constant(Handle<key::Constant>),
    /// An override of the module.
    Override(Handle<key::Override>),
    /// A global variable of the module.
    GlobalVariable(Handle<key::GlobalVariable>),
    /// A local variable of the function that contains it.
    LocalVariable(Handle<key::LocalVariable>),
    /// A function of the module, not an entry point's.
    Function(Handle<key::Function>),
    /// A diagnostic filter node of the module.
    DiagnosticFilter(Handle<key::DiagnosticFilterNode>),
}
