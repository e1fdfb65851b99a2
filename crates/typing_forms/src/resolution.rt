//! Type resolutions of expressions.

ghost use Rattle.std.specs.Prelude.{◌≡◌, ◌↔◌, IsTrue, Some, length, IfOk};
ghost use Rattle.ir_types.specs.judged.Plain.{inner_view};
ghost use Rattle.typing_forms.specs.judged.Resolutions.{types_view, resolution_view, handle_of, resolved, IsAmong};

use ir_sets::unique_arena::UniqueArena;
use ir_types::ir_arena::handle::Handle;
use ir_types::{IrType, TypeInner, key};
use std::alloc::{AllocError, Global};

/// The type of an expression (naga's `TypeResolution`).
#[derive(PartialEq, Debug, Drop)]
pub enum TypeResolution {
    /// A type of the module, by handle.
    Handle(Handle<key::IrType>),
    /// A type that need not be in the module's arena, by its inner type. It is no struct.
    Value(TypeInner),
}

impl TypeResolution {
    /// The handle of the type, if it is given by one (naga's `TypeResolution::handle`).
    pub const fn handle(&self) -> Option<Handle<key::IrType>>
        ensures { result ≡ handle_of (resolution_view self.now) }
    {
        match *self {
            TypeResolution::Handle(handle) => Some(handle),
            TypeResolution::Value(_) => None,
        }
    }

    /// Whether the type exists: given by a handle, it is in `types`.
    pub fn is_among(&self, types: &UniqueArena<IrType, key::IrType>) -> bool
        ensures { IsTrue result ↔ IsAmong (length types.now) (resolution_view self.now) }
    {
        match *self {
            TypeResolution::Handle(handle) => handle.index() < types.len(),
            TypeResolution::Value(_) => true,
        }
    }

    /// The inner type, borrowed from the arena or from the resolution itself (naga's
    /// `TypeResolution::inner_with`).
    #[tactic(auto, using(crate::proofs::Lookups::inner_found))]
    pub fn inner_with<'a>(&'a self, types: &'a UniqueArena<IrType, key::IrType>) -> &'a TypeInner
        requires { IsAmong (length types.now) (resolution_view self.now) }
        ensures { Some (inner_view result.now) ≡ resolved (types_view types.now) (resolution_view self.now) }
    {
        match *self {
            TypeResolution::Handle(handle) => &types[handle].inner,
            TypeResolution::Value(ref inner) => inner,
        }
    }

    /// A deep copy (naga's `TypeResolution::clone`). The error is out of memory.
    pub fn clone(&self, alloc: Global) -> Result<TypeResolution, AllocError>
        ensures { IfOk result (λ copy. resolution_view copy ≡ resolution_view self.now) }
    {
        match *self {
            TypeResolution::Handle(handle) => Ok(TypeResolution::Handle(handle)),
            TypeResolution::Value(ref inner) => Ok(TypeResolution::Value(inner.clone(alloc)?)),
        }
    }
}
