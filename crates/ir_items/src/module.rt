// The shader module.
ghost use Rattle.std.specs.Prelude.{◌≡◌, IfOk};
ghost use Rattle.ir_items.specs.found.Copies.{spanned_module};
ghost use Rattle.ir_items.specs.found.Lists.{module_of};
ghost use Rattle.ir_items.specs.found.View.{module_view, empty_module};

use crate::entries::EntryPoint;
use crate::functions::Function;
use crate::module_lists::{CodeLists, GlobalLists, TypeLists};
use crate::{Constant, DiagnosticFilterNode, GlobalVariable, Override, SpecialTypes};
use ir_blocks::ir_arena::arena::Arena;
use ir_blocks::ir_arena::handle::Handle;
use ir_blocks::ir_types::{Expression, IrType, key};
use ir_sets::unique_arena::UniqueArena;
use std::alloc::{AllocError, Global};

/// A shader module (naga's `Module`).
#[derive(PartialEq, Debug, Drop)]
pub struct Module {
    /// The types, no two of them equal.
    pub types: UniqueArena<IrType, key::IrType>,
    /// The special types, which some expressions require.
    pub special_types: SpecialTypes,
    /// The constants.
    pub constants: Arena<Constant, key::Constant>,
    /// The overrides.
    pub overrides: Arena<Override, key::Override>,
    /// The global variables.
    pub global_variables: Arena<GlobalVariable, key::GlobalVariable>,
    /// The global expressions: initialisers of constants, overrides and variables.
    pub global_expressions: Arena<Expression, key::Expression>,
    /// The functions other than entry points.
    pub functions: Arena<Function, key::Function>,
    /// The entry points.
    pub entry_points: Vec<EntryPoint>,
    /// The diagnostic filter nodes.
    pub diagnostic_filters: Arena<DiagnosticFilterNode, key::DiagnosticFilterNode>,
    /// The innermost diagnostic filter of the module.
    pub diagnostic_filter_leaf: Option<Handle<key::DiagnosticFilterNode>>,
}

/// What a global expression may reference (naga's `GlobalCtx`).
#[derive(Clone, Copy)]
pub struct GlobalCtx<'a> {
    /// The types.
    pub types: &'a UniqueArena<IrType, key::IrType>,
    /// The constants.
    pub constants: &'a Arena<Constant, key::Constant>,
    /// The overrides.
    pub overrides: &'a Arena<Override, key::Override>,
    /// The global expressions.
    pub global_expressions: &'a Arena<Expression, key::Expression>,
}

impl Module {
    /// An empty module (naga's `Module::default`).
    pub fn new(alloc: Global) -> Module
        ensures { module_view result ≡ empty_module }
    {
        Module {
            types: UniqueArena::new(alloc),
            special_types: SpecialTypes::new(alloc),
            constants: Arena::new(alloc),
            overrides: Arena::new(alloc),
            global_variables: Arena::new(alloc),
            global_expressions: Arena::new(alloc),
            functions: Arena::new(alloc),
            entry_points: Vec::new(alloc),
            diagnostic_filters: Arena::new(alloc),
            diagnostic_filter_leaf: None,
        }
    }

    /// An equal module in memory of its own, with the same spans. The error is out of memory.
    pub fn clone(&self, alloc: Global) -> Result<Module, AllocError>
        ensures { IfOk result (λ copy. spanned_module copy ≡ spanned_module self.now) }
    {
        let types = TypeLists::of_copies(alloc, self)?;
        let globals = GlobalLists::of_copies(alloc, self)?;
        let code = CodeLists::of_copies(alloc, self)?;
        Ok(Module::of_lists(types, globals, code, self.diagnostic_filter_leaf))
    }

    // The module with these arenas and lists.
    fn of_lists(
        types: TypeLists,
        globals: GlobalLists,
        code: CodeLists,
        leaf: Option<Handle<key::DiagnosticFilterNode>>,
    ) -> Module
        ensures { result ≡ module_of types globals code leaf }
    {
        Module {
            types: types.types,
            special_types: types.special,
            constants: globals.constants.constants,
            overrides: globals.constants.overrides,
            global_variables: globals.variables.variables,
            global_expressions: globals.variables.expressions,
            functions: code.functions,
            entry_points: code.entry_points,
            diagnostic_filters: code.filters,
            diagnostic_filter_leaf: leaf,
        }
    }

    /// The context of its global expressions.
    pub fn to_ctx(&self) -> GlobalCtx<'_>
        ensures types { result.types.now ≡ self.now.types }
        ensures constants { result.constants.now ≡ self.now.constants }
        ensures overrides { result.overrides.now ≡ self.now.overrides }
        ensures global_expressions { result.global_expressions.now ≡ self.now.global_expressions }
    {
        GlobalCtx {
            types: &self.types,
            constants: &self.constants,
            overrides: &self.overrides,
            global_expressions: &self.global_expressions,
        }
    }
}
