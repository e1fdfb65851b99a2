//! The info of a module.

ghost use Rattle.std.specs.Prelude.{◌≡◌, ◌<◌, ◌++◌, ◌∷◌, [], Some, OnErr, OnOk, length, slice_get};

use crate::FunctionInfo;
use ir_arena::handle::Handle;
use ir_types::key;
use std::alloc::{AllocError, Global};
use std::ops::Index;
use typing_forms::TypeResolution;
use typing_layout::{Layouter, TypeInfo, TypeLayout};

/// The info of a module (naga's `ModuleInfo`): flags and layouts of its types, the types of its global
/// expressions, and the infos of its functions and of its entry points' functions, each in order. Indexed by a type's handle it
/// is the type's info, by a global expression's handle its type, by a function's handle the function's
/// info.
#[derive(Drop)]
pub struct ModuleInfo {
    types: Vec<TypeInfo>,
    layouter: Layouter,
    const_expression_types: Vec<TypeResolution>,
    functions: Vec<FunctionInfo>,
    entry_points: Vec<FunctionInfo>,
}

impl ModuleInfo {
    /// The info of an empty module. It allocates nothing.
    pub fn new(alloc: Global) -> ModuleInfo
        ensures types { result.types.items ≡ [] }
        ensures layouts { result.layouter ≡ [] }
        ensures expressions { result.const_expression_types.items ≡ [] }
        ensures functions { result.functions.items ≡ [] }
        ensures entry_points { result.entry_points.items ≡ [] }
    {
        ModuleInfo {
            types: Vec::new(alloc),
            layouter: Layouter::new(alloc),
            const_expression_types: Vec::new(alloc),
            functions: Vec::new(alloc),
            entry_points: Vec::new(alloc),
        }
    }

    /// The info of a module with these types and global expressions, and no functions and entry points yet. It allocates nothing.
    pub fn of_parts(
        alloc: Global,
        types: Vec<TypeInfo>,
        layouter: Layouter,
        const_expression_types: Vec<TypeResolution>,
    ) -> ModuleInfo
        ensures types { result.types ≡ types }
        ensures layouts { result.layouter ≡ layouter }
        ensures expressions { result.const_expression_types ≡ const_expression_types }
        ensures functions { result.functions.items ≡ [] }
        ensures entry_points { result.entry_points.items ≡ [] }
    {
        ModuleInfo {
            types,
            layouter,
            const_expression_types,
            functions: Vec::new(alloc),
            entry_points: Vec::new(alloc),
        }
    }

    /// The info of a type of the module.
    pub fn type_info(&self, ty: Handle<key::IrType>) -> TypeInfo
        requires { ty < length self.now.types.items }
        ensures { slice_get self.now.types.items ty ≡ Some result }
    {
        self.types[ty.index()]
    }

    /// The layout of a type of the module, in bytes.
    pub fn layout(&self, ty: Handle<key::IrType>) -> TypeLayout
        requires { ty < length self.now.layouter }
        ensures { slice_get self.now.layouter ty ≡ Some result }
    {
        self.layouter[ty]
    }

    /// The infos of the types, in order.
    pub fn types(&self) -> &[TypeInfo]
        ensures { result.now ≡ self.now.types.items }
    {
        &self.types
    }

    /// The types of the global expressions, in order.
    pub fn const_expression_types(&self) -> &[TypeResolution]
        ensures { result.now ≡ self.now.const_expression_types.items }
    {
        &self.const_expression_types
    }

    /// The infos of the functions, in order.
    pub fn functions(&self) -> &[FunctionInfo]
        ensures { result.now ≡ self.now.functions.items }
    {
        &self.functions
    }

    /// The info of the function of the entry point at an index (naga's `ModuleInfo::get_entry_point`).
    pub fn get_entry_point(&self, index: usize) -> &FunctionInfo
        requires { index < length self.now.entry_points.items }
        ensures { slice_get self.now.entry_points.items index ≡ Some result.now }
    {
        &self.entry_points[index]
    }

    /// The same info with the given infos of functions, in order. It allocates nothing.
    pub fn with_functions(self, functions: Vec<FunctionInfo>) -> ModuleInfo
        ensures { result ≡ record self { functions = functions } }
    {
        ModuleInfo {
            types: self.types,
            layouter: self.layouter,
            const_expression_types: self.const_expression_types,
            functions,
            entry_points: self.entry_points,
        }
    }

    /// The same info with the given infos of entry points' functions, in order. It allocates nothing.
    pub fn with_entry_points(self, entry_points: Vec<FunctionInfo>) -> ModuleInfo
        ensures { result ≡ record self { entry_points = entry_points } }
    {
        ModuleInfo {
            types: self.types,
            layouter: self.layouter,
            const_expression_types: self.const_expression_types,
            functions: self.functions,
            entry_points,
        }
    }

    /// Adds the info of the next function. The error is out of memory; the info is dropped then, and nothing else changes.
    pub fn push_function(&mut self, info: FunctionInfo) -> Result<(), AllocError>
        ensures added { OnOk result (self.new.functions.items ≡ self.old.functions.items ++ info ∷ []) }
        ensures kept { OnErr result (self.new.functions.items ≡ self.old.functions.items) }
        ensures rest { self.new ≡ record self.old { functions = self.new.functions } }
    {
        self.functions.push(info)?;
        Ok(())
    }

    /// Adds the info of the next entry point's function. The error is out of memory; the info is dropped then, and
    /// nothing else changes.
    pub fn push_entry_point(&mut self, info: FunctionInfo) -> Result<(), AllocError>
        ensures added { OnOk result (self.new.entry_points.items ≡ self.old.entry_points.items ++ info ∷ []) }
        ensures kept { OnErr result (self.new.entry_points.items ≡ self.old.entry_points.items) }
        ensures rest { self.new ≡ record self.old { entry_points = self.new.entry_points } }
    {
        self.entry_points.push(info)?;
        Ok(())
    }
}

impl Index<Handle<key::IrType>> for ModuleInfo {
    type Output = TypeInfo;

    ghost can_index = { λ info ty. ty < length info.types.items };

    ghost index_gives = { λ info ty x. Some x ≡ slice_get info.types.items ty };

    /// The info of a type of the module.
    fn index(&self, handle: Handle<key::IrType>) -> &TypeInfo {
        &self.types[handle.index()]
    }
}

impl Index<Handle<key::Expression>> for ModuleInfo {
    type Output = TypeResolution;

    ghost can_index = { λ info e. e < length info.const_expression_types.items };

    ghost index_gives = { λ info e x. Some x ≡ slice_get info.const_expression_types.items e };

    /// The type of a global expression of the module.
    fn index(&self, handle: Handle<key::Expression>) -> &TypeResolution {
        &self.const_expression_types[handle.index()]
    }
}

impl Index<Handle<key::Function>> for ModuleInfo {
    type Output = FunctionInfo;

    ghost can_index = { λ info f. f < length info.functions.items };

    ghost index_gives = { λ info f x. Some x ≡ slice_get info.functions.items f };

    /// The info of a function of the module.
    fn index(&self, handle: Handle<key::Function>) -> &FunctionInfo {
        &self.functions[handle.index()]
    }
}
