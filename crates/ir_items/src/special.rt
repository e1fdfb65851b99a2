// The special types, which some expressions require.
ghost use Rattle.std.specs.Prelude.{◌≡◌, IfOk};
ghost use Rattle.ir_items.specs.found.GlobalView.{special_view, no_special};

use indexmap::IndexMap;
use ir_blocks::ir_arena::handle::Handle;
use ir_blocks::ir_types::key;
use ir_kinds::PredeclaredType;
use std::alloc::{AllocError, Global};

/// The types that some expressions require, if the module has them (naga's `SpecialTypes`).
#[derive(PartialEq, Debug, Drop)]
pub struct SpecialTypes {
    /// The ray descriptor type.
    pub ray_desc: Option<Handle<key::IrType>>,
    /// The ray intersection type.
    pub ray_intersection: Option<Handle<key::IrType>>,
    /// The type of a hit triangle's vertex positions.
    pub ray_vertex_return: Option<Handle<key::IrType>>,
    /// The predeclared result types of some built-in functions.
    pub predeclared_types: IndexMap<PredeclaredType, Handle<key::IrType>>,
}

impl SpecialTypes {
    /// No special types (naga's `SpecialTypes::default`).
    pub fn new(alloc: Global) -> SpecialTypes
        ensures { special_view result ≡ no_special }
    {
        SpecialTypes {
            ray_desc: None,
            ray_intersection: None,
            ray_vertex_return: None,
            predeclared_types: IndexMap::new(alloc),
        }
    }

    /// Equal special types in memory of their own. The error is out of memory.
    pub fn clone(&self, _alloc: Global) -> Result<SpecialTypes, AllocError>
        ensures { IfOk result (λ copy. special_view copy ≡ special_view self.now) }
    {
        Ok(SpecialTypes {
            ray_desc: self.ray_desc,
            ray_intersection: self.ray_intersection,
            ray_vertex_return: self.ray_vertex_return,
            predeclared_types: self.predeclared_types.clone()?,
        })
    }
}
