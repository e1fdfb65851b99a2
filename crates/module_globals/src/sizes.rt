//! The size of a module's immediate data.

ghost use Rattle.std.specs.Prelude.{◌≡◌, ◌↔◌, ◌≤◌, ◌⊎◌, IsTrue, length};
ghost use Rattle.module_globals.specs.Sizes.{AreGreatest};
ghost use Rattle.ir_items.specs.found.View.{module_view};
ghost use Rattle.ir_kinds.specs.declared.spaces.AddressSpace.TheVariants.{Immediate};
ghost use Rattle.typing_layout.specs.judged.Layout.{size};
ghost use Rattle.typing_layout.specs.judged.View.{type_tree};
ghost use Rattle.typing_forms.specs.judged.Resolutions.{types_view};

use crate::slots::ImmediateSlots;
use ir_arena::handle::Handle;
use ir_items::{GlobalVariable, IrType, Module, key};
use ir_kinds::AddressSpace;
use ir_sets::unique_arena::UniqueArena;
use typing_forms::{TypeInnerExt, inner_of};

// Whether an address space is `Immediate`.
fn is_immediate(space: AddressSpace) -> bool
    ensures { IsTrue result ↔ (space ≡ Immediate) }
{
    match space {
        AddressSpace::Immediate => true,
        AddressSpace::Function
        | AddressSpace::Private
        | AddressSpace::WorkGroup
        | AddressSpace::Uniform
        | AddressSpace::Storage { .. }
        | AddressSpace::Handle
        | AddressSpace::TaskPayload
        | AddressSpace::RayPayload
        | AddressSpace::IncomingRayPayload => false,
    }
}

// The size of a type in bytes.
#[tactic(auto, using(crate::proofs::SizeLemmas::size_found, crate::proofs::SizeLemmas::size_missing))]
fn size_at(types: &UniqueArena<IrType, key::IrType>, ty: Handle<key::IrType>) -> u64
    ensures { result ≡ size (type_tree (types_view types.now) ty) }
{
    match inner_of(types, ty) {
        Some(inner) => inner.size(),
        None => 0,
    }
}

// The maximum of a size and that of a variable, if it is immediate data.
fn with_variable(module: &Module, variable: &GlobalVariable, greatest: u64) -> u64
    ensures not_below { greatest ≤ result }
    ensures own { variable.now.space ≡ Immediate → size (type_tree (module_view «module».now).types variable.now.ty) ≤ result }
    ensures is { (result ≡ greatest) ⊎ ((variable.now.space ≡ Immediate) × (size (type_tree (module_view «module».now).types variable.now.ty) ≡ result)) }
{
    if !is_immediate(variable.space) {
        return greatest;
    }
    let size = size_at(&module.types, variable.ty);
    if size > greatest { size } else { greatest }
}

impl ImmediateSlots {
    /// The size in bytes of a module's immediate data: that of its largest immediate-data variable, or 0 if there
    /// is none.
    pub fn size_for_module(module: &Module) -> u64
        ensures { AreGreatest (module_view «module».now) (length (module_view «module».now).globals) result }
    {
        let mut greatest = 0;
        for place in 0..module.global_variables.len() {
            let variable = &module.global_variables[Handle::at(place)];
            greatest = with_variable(module, variable, greatest);
        }
        greatest
    }
}
