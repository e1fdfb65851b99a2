// The arenas and lists of a module in three parts, each of which is copied separately.
ghost use Rattle.std.specs.Prelude.{◌≡◌, IfOk, map};
ghost use Rattle.ir_blocks.specs.IrTypes.{expression_view, type_view};
ghost use Rattle.ir_blocks.specs.IrArena.{entry_of};
ghost use Rattle.ir_items.specs.found.GlobalView.{special_view, constant_view, override_view, global_view, node_view};
ghost use Rattle.ir_items.specs.found.Copies.{spanned_function, spanned_entry};

use crate::entries::EntryPoint;
use crate::functions::Function;
use crate::module::Module;
use crate::{Constant, DiagnosticFilterNode, GlobalVariable, Override, SpecialTypes};
use ir_blocks::ir_arena::arena::Arena;
use ir_blocks::ir_arena::copied::copy_list;
use ir_blocks::ir_types::{Expression, IrType, key};
use ir_sets::unique_arena::UniqueArena;
use std::alloc::{AllocError, Global};

// The types, and the special types.
#[derive(Drop)]
pub(crate) struct TypeLists {
    pub(crate) types: UniqueArena<IrType, key::IrType>,
    pub(crate) special: SpecialTypes,
}

// The constants, overrides and variables, and the global expressions.
#[derive(Drop)]
pub(crate) struct GlobalLists {
    pub(crate) constants: ConstantLists,
    pub(crate) variables: VariableLists,
}

// The constants and the overrides.
#[derive(Drop)]
pub(crate) struct ConstantLists {
    pub(crate) constants: Arena<Constant, key::Constant>,
    pub(crate) overrides: Arena<Override, key::Override>,
}

// The global variables, and the global expressions.
#[derive(Drop)]
pub(crate) struct VariableLists {
    pub(crate) variables: Arena<GlobalVariable, key::GlobalVariable>,
    pub(crate) expressions: Arena<Expression, key::Expression>,
}

// The functions, the entry points, and the diagnostic filters.
#[derive(Drop)]
pub(crate) struct CodeLists {
    pub(crate) functions: Arena<Function, key::Function>,
    pub(crate) entry_points: Vec<EntryPoint>,
    pub(crate) filters: Arena<DiagnosticFilterNode, key::DiagnosticFilterNode>,
}

impl TypeLists {
    // Those of `source` in memory of their own, with the same spans. The error is out of memory.
    pub(crate) fn of_copies(alloc: Global, source: &Module) -> Result<TypeLists, AllocError>
        ensures types { IfOk result (λ l. map (entry_of type_view) l.types ≡ map (entry_of type_view) source.now.types) }
        ensures special { IfOk result (λ l. special_view l.special ≡ special_view source.now.special_types) }
    {
        Ok(TypeLists {
            types: source.types.clone(alloc)?,
            special: source.special_types.clone(alloc)?,
        })
    }
}

impl GlobalLists {
    // Those of `source` in memory of their own, with the same spans. The error is out of memory.
    pub(crate) fn of_copies(alloc: Global, source: &Module) -> Result<GlobalLists, AllocError>
        ensures constants { IfOk result (λ l. map (entry_of constant_view) l.constants.constants ≡ map (entry_of constant_view) source.now.constants) }
        ensures overrides { IfOk result (λ l. map (entry_of override_view) l.constants.overrides ≡ map (entry_of override_view) source.now.overrides) }
        ensures variables { IfOk result (λ l. map (entry_of global_view) l.variables.variables ≡ map (entry_of global_view) source.now.global_variables) }
        ensures expressions { IfOk result (λ l. map (entry_of expression_view) l.variables.expressions ≡ map (entry_of expression_view) source.now.global_expressions) }
    {
        Ok(GlobalLists {
            constants: ConstantLists::of_copies(alloc, source)?,
            variables: VariableLists::of_copies(alloc, source)?,
        })
    }
}

impl ConstantLists {
    // Those of `source` in memory of their own, with the same spans. The error is out of memory.
    fn of_copies(alloc: Global, source: &Module) -> Result<ConstantLists, AllocError>
        ensures constants { IfOk result (λ l. map (entry_of constant_view) l.constants ≡ map (entry_of constant_view) source.now.constants) }
        ensures overrides { IfOk result (λ l. map (entry_of override_view) l.overrides ≡ map (entry_of override_view) source.now.overrides) }
    {
        Ok(ConstantLists {
            constants: source.constants.clone(alloc)?,
            overrides: source.overrides.clone(alloc)?,
        })
    }
}

impl VariableLists {
    // Those of `source` in memory of their own, with the same spans. The error is out of memory.
    fn of_copies(alloc: Global, source: &Module) -> Result<VariableLists, AllocError>
        ensures variables { IfOk result (λ l. map (entry_of global_view) l.variables ≡ map (entry_of global_view) source.now.global_variables) }
        ensures expressions { IfOk result (λ l. map (entry_of expression_view) l.expressions ≡ map (entry_of expression_view) source.now.global_expressions) }
    {
        Ok(VariableLists {
            variables: source.global_variables.clone(alloc)?,
            expressions: source.global_expressions.clone(alloc)?,
        })
    }
}

impl CodeLists {
    // Those of `source` in memory of their own, with the same spans. The error is out of memory.
    pub(crate) fn of_copies(alloc: Global, source: &Module) -> Result<CodeLists, AllocError>
        ensures functions { IfOk result (λ l. map (entry_of spanned_function) l.functions ≡ map (entry_of spanned_function) source.now.functions) }
        ensures entries { IfOk result (λ l. map spanned_entry l.entry_points.items ≡ map spanned_entry source.now.entry_points.items) }
        ensures filters { IfOk result (λ l. map (entry_of node_view) l.filters ≡ map (entry_of node_view) source.now.diagnostic_filters) }
    {
        Ok(CodeLists {
            functions: source.functions.clone(alloc)?,
            entry_points: copy_list(alloc, &source.entry_points)?,
            filters: source.diagnostic_filters.clone(alloc)?,
        })
    }
}
