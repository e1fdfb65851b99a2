// Constants, overrides and global variables.
ghost use Rattle.std.specs.Prelude.{◌≡◌, IfOk};
ghost use Rattle.ir_items.specs.found.GlobalView.{constant_view, override_view, global_view};

use ir_blocks::ir_arena::copied::Copied;
use ir_blocks::ir_arena::handle::Handle;
use ir_blocks::ir_types::{clone_name, key};
use ir_flags::MemoryDecorations;
use ir_kinds::{AddressSpace, ResourceBinding};
use std::alloc::{AllocError, Global};

/// A constant (naga's `Constant`).
#[derive(PartialEq, Debug, Drop)]
pub struct Constant {
    /// The name in the source, if any.
    pub name: Option<String>,
    /// Its type.
    pub ty: Handle<key::IrType>,
    /// The initialiser, a global expression.
    pub init: Handle<key::Expression>,
}

/// An override: a constant that a pipeline may set (naga's `Override`).
#[derive(PartialEq, Debug, Drop)]
pub struct Override {
    /// The name in the source, if any.
    pub name: Option<String>,
    /// The pipeline constant ID, if any.
    pub id: Option<u16>,
    /// Its type.
    pub ty: Handle<key::IrType>,
    /// The default value, a global expression, if any.
    pub init: Option<Handle<key::Expression>>,
}

/// A global variable (naga's `GlobalVariable`).
#[derive(PartialEq, Eq, Debug, Drop)]
pub struct GlobalVariable {
    /// The name in the source, if any.
    pub name: Option<String>,
    /// The address space.
    pub space: AddressSpace,
    /// The resource binding, if any.
    pub binding: Option<ResourceBinding>,
    /// Its type.
    pub ty: Handle<key::IrType>,
    /// The initialiser, a global expression, if any.
    pub init: Option<Handle<key::Expression>>,
    /// The memory decorations.
    pub memory_decorations: MemoryDecorations,
}

impl Constant {
    /// An equal constant in memory of its own. The error is out of memory.
    pub fn clone(&self, alloc: Global) -> Result<Constant, AllocError>
        ensures { IfOk result (λ copy. constant_view copy ≡ constant_view self.now) }
    {
        Ok(Constant {
            name: clone_name(alloc, &self.name)?,
            ty: self.ty,
            init: self.init,
        })
    }
}

impl Override {
    /// An equal override in memory of its own. The error is out of memory.
    pub fn clone(&self, alloc: Global) -> Result<Override, AllocError>
        ensures { IfOk result (λ copy. override_view copy ≡ override_view self.now) }
    {
        Ok(Override {
            name: clone_name(alloc, &self.name)?,
            id: self.id,
            ty: self.ty,
            init: self.init,
        })
    }
}

impl GlobalVariable {
    /// An equal variable in memory of its own. The error is out of memory.
    pub fn clone(&self, alloc: Global) -> Result<GlobalVariable, AllocError>
        ensures { IfOk result (λ copy. global_view copy ≡ global_view self.now) }
    {
        Ok(GlobalVariable {
            name: clone_name(alloc, &self.name)?,
            space: self.space,
            binding: self.binding,
            ty: self.ty,
            init: self.init,
            memory_decorations: self.memory_decorations,
        })
    }
}

impl Copied for Constant {
    ghost use Rattle.ir_items.specs.judged.GlobalPlain.{PlainConstant};
    ghost use Rattle.ir_items.specs.found.GlobalView.{constant_view};

    ghost View = { PlainConstant };

    ghost view = { constant_view };

    fn copied(&self, alloc: Global) -> Result<Constant, AllocError> {
        self.clone(alloc)
    }
}

impl Copied for Override {
    ghost use Rattle.ir_items.specs.judged.GlobalPlain.{PlainOverride};
    ghost use Rattle.ir_items.specs.found.GlobalView.{override_view};

    ghost View = { PlainOverride };

    ghost view = { override_view };

    fn copied(&self, alloc: Global) -> Result<Override, AllocError> {
        self.clone(alloc)
    }
}

impl Copied for GlobalVariable {
    ghost use Rattle.ir_items.specs.judged.GlobalPlain.{PlainGlobal};
    ghost use Rattle.ir_items.specs.found.GlobalView.{global_view};

    ghost View = { PlainGlobal };

    ghost view = { global_view };

    fn copied(&self, alloc: Global) -> Result<GlobalVariable, AllocError> {
        self.clone(alloc)
    }
}
