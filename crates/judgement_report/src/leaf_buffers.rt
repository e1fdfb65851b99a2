//! The leaves of a global variable.

ghost use Rattle.std.specs.Prelude.{◌≡◌, ◌<◌, IfOk, length};
ghost use Rattle.ir_items.specs.found.View.{module_view};
ghost use Rattle.judgement_report.specs.Rows.{AreLaid, AreLeavesOf};
ghost use Rattle.spec_interface.specs.judged.Spaces.{effective_type};
ghost use Rattle.spec_expressions.specs.judged.ModuleHandles.{HandlesOK};
ghost use Rattle.typing_forms.specs.judged.Resolutions.{types_view};

use crate::leaves::{Leaf, add_along};
use ir_arena::handle::Handle;
use ir_items::Module;
use ir_sets::unique_arena::UniqueArena;
use ir_types::{IrType, TypeInner, key};
use std::alloc::{AllocError, Global};
use typing_forms::inner_of;

/// The type whose leaves are listed: for a binding array its element type.
pub(crate) fn counted(
    types: &UniqueArena<IrType, key::IrType>,
    ty: Handle<key::IrType>,
) -> Handle<key::IrType>
    ensures { result ≡ effective_type (types_view types.now) ty }
{
    match inner_of(types, ty) {
        Some(TypeInner::BindingArray { base, .. }) => *base,
        _ => ty,
    }
}

/// The offsets of the scalars, vectors, matrices and atomics inside a global variable, in the order of their paths: depth first, by
/// members and elements in order. For a binding array they are those of one element; an
/// override-sized or runtime-sized array counts as one element.
///
/// `handles` requires that the handles of the module are valid, `laid` that each of its types has a layout, and `there` that the
/// variable is in the module. The steps of validation up to its types imply the first two. No sum of
/// offsets wraps, whatever the sizes of the types.
///
/// Each leaf is listed once for each occurrence, so an array takes memory proportional to its length. The recursion is as
/// deep as types nest.
///
/// # Errors
///
/// Out of memory. Nothing is allocated then.
pub fn buffer_leaves(
    alloc: Global,
    module: &Module,
    global: Handle<key::GlobalVariable>,
) -> Result<Vec<Leaf>, AllocError>
    requires handles { HandlesOK (module_view «module».now) }
    requires laid { AreLaid (module_view «module».now) }
    requires there { global < length (module_view «module».now).globals }
    ensures { IfOk result (λ found. AreLeavesOf (module_view «module».now) global found.items) }
{
    let mut found = Vec::new(alloc);
    let variable = &module.global_variables[global];
    let ty = counted(&module.types, variable.ty);
    add_along(&module.types, module.types.len(), ty, 0, &mut found)?;
    Ok(found)
}
