//! The number of items of each kind.

ghost use Rattle.std.specs.Prelude.{◌≡◌, option_and_then, option_map};
ghost use Rattle.ir_items.specs.found.View.{function_view, module_view};
ghost use Rattle.spec_expressions.specs.declared.item.ItemKind.TheVariants as kind;
ghost use Rattle.typing_references.specs.Faults.{bounds_of, outside_functions, missing, item_missing, absent};

use crate::fault::HandleFault;
use ir_arena::handle::Handle;
use ir_items::{Function, Module, key};
use spec_expressions::{ItemKind, Target};

/// The number of items of each kind.
#[derive(Clone, Copy)]
pub struct Bounds {
    /// Types of the module.
    pub types: usize,
    /// Constants of the module.
    pub constants: usize,
    /// Overrides of the module.
    pub overrides: usize,
    /// Global variables of the module.
    pub global_variables: usize,
    /// Local variables of the function.
    pub local_variables: usize,
    /// Functions of the module, entry points excluded.
    pub functions: usize,
    /// Diagnostic filters of the module.
    pub filters: usize,
    /// Expressions of the function, or global expressions.
    pub expressions: usize,
}

// The fault of referring to the item at an index, if it does not exist.
fn missing(kind: ItemKind, there: usize, index: usize) -> Option<HandleFault>
    ensures { result ≡ missing kind there index }
{
    if index < there {
        None
    } else {
        Some(HandleFault::Missing { kind, index })
    }
}

impl Bounds {
    /// The bounds in a function of the module.
    pub fn of(function: &Function, module: &Module) -> Bounds
        ensures { result ≡ bounds_of (module_view «module».now) (function_view function.now) }
    {
        Bounds {
            types: module.types.len(),
            constants: module.constants.len(),
            overrides: module.overrides.len(),
            global_variables: module.global_variables.len(),
            local_variables: function.local_variables.len(),
            functions: module.functions.len(),
            filters: module.diagnostic_filters.len(),
            expressions: function.expressions.len(),
        }
    }

    /// The bounds outside of functions.
    pub fn outside_functions(module: &Module) -> Bounds
        ensures { result ≡ outside_functions (module_view «module».now) }
    {
        Bounds {
            types: module.types.len(),
            constants: module.constants.len(),
            overrides: module.overrides.len(),
            global_variables: module.global_variables.len(),
            local_variables: 0,
            functions: module.functions.len(),
            filters: module.diagnostic_filters.len(),
            expressions: module.global_expressions.len(),
        }
    }

    /// The fault of referring to an item, if it does not exist.
    pub fn missing_item(&self, item: Target) -> Option<HandleFault>
        ensures { result ≡ item_missing self.now item }
    {
        match item {
            Target::Type(handle) => missing(ItemKind::Type, self.types, handle.index()),
            Target::Constant(handle) => missing(ItemKind::Constant, self.constants, handle.index()),
            Target::Override(handle) => missing(ItemKind::Override, self.overrides, handle.index()),
            Target::GlobalVariable(handle) => missing(
                ItemKind::GlobalVariable,
                self.global_variables,
                handle.index(),
            ),
            Target::LocalVariable(handle) => missing(
                ItemKind::LocalVariable,
                self.local_variables,
                handle.index(),
            ),
            Target::Function(handle) => missing(ItemKind::Function, self.functions, handle.index()),
            Target::DiagnosticFilter(handle) => missing(
                ItemKind::DiagnosticFilter,
                self.filters,
                handle.index(),
            ),
        }
    }

    /// The fault of an optional item, if it does not exist.
    pub fn missing_if(&self, item: Option<Target>) -> Option<HandleFault>
        ensures { result ≡ option_and_then (item_missing self.now) item }
    {
        match item {
            Some(item) => self.missing_item(item),
            None => None,
        }
    }

    /// The fault of referring to an expression, if it does not exist.
    pub fn missing_expression(&self, handle: Handle<key::Expression>) -> Option<HandleFault>
        ensures { result ≡ missing kind.Expression self.now.expressions handle }
    {
        missing(ItemKind::Expression, self.expressions, handle.index())
    }

    /// The fault of an optional expression, if it does not exist.
    pub fn missing_expression_if(
        &self,
        handle: Option<Handle<key::Expression>>,
    ) -> Option<HandleFault>
        ensures { result ≡ option_and_then (missing kind.Expression self.now.expressions) handle }
    {
        match handle {
            Some(handle) => self.missing_expression(handle),
            None => None,
        }
    }
}

/// The fault of an operand that does not exist.
pub fn absent(operand: Option<Handle<key::Expression>>) -> Option<HandleFault>
    ensures { result ≡ option_map absent operand }
{
    match operand {
        Some(operand) => Some(HandleFault::Missing {
            kind: ItemKind::Expression,
            index: operand.index(),
        }),
        None => None,
    }
}
