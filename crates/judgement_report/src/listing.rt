//! The rows of buffers, each with those of its leaves.

ghost use Rattle.std.specs.Prelude.{◌≡◌, ◌<◌, ◌++◌, IfOk, OnOk, length};
ghost use Rattle.ir_items.specs.found.GlobalView.{global_view};
ghost use Rattle.ir_items.specs.found.View.{module_view};
ghost use Rattle.judgement_report.specs.Lines.{described, leaf_report, listing_lines};
ghost use Rattle.judgement_report.specs.Rows.{AreLaid, AreLayoutsIn};
ghost use Rattle.spec_expressions.specs.judged.ModuleHandles.{HandlesOK};

use crate::buffers::is_buffer;
use crate::leaf_buffers::counted;
use crate::leaf_rows::{Listing, MAX_NESTING, add_along, add_buffer};
use ir_arena::handle::Handle;
use ir_items::{GlobalVariable, Module};
use judgement_rows::ListingRow;
use std::alloc::{AllocError, Global};
use typing_infos::ModuleInfo;

// Appends the rows of a global variable, if it is a buffer.
fn add_variable(
    alloc: Global,
    module: &Module,
    info: &ModuleInfo,
    number: usize,
    variable: &GlobalVariable,
    out: &mut Listing,
) -> Result<(), AllocError>
    requires handles { HandlesOK (module_view «module».now) }
    requires laid { AreLaid (module_view «module».now) }
    requires layouts { AreLayoutsIn (module_view «module».now) info.now }
    requires typed { variable.now.ty < length (module_view «module».now).types }
    ensures { OnOk result (listing_lines out.new.rows.items ≡ listing_lines out.old.rows.items ++ described (module_view «module».now).types number (global_view variable.now)) }
{
    if !is_buffer(variable.space) {
        return Ok(());
    }
    let ty = counted(&module.types, variable.ty);
    let layout = info.layout(ty);
    add_buffer(out, number, layout.size, layout.alignment.get())?;
    add_along(alloc, &module.types, MAX_NESTING, ty, "", &[], 0, out)
}

/// The rows of a module's storage and uniform buffers, in order: for each its own, followed by those of its leaves. The same leaf
/// of all elements of an array has one row.
///
/// `handles` requires that the handles of the module are valid, `laid` that each of its types has a layout, and `layouts` that the
/// `ModuleInfo` has these layouts.
///
/// # Errors
///
/// Out of memory, or the types of a buffer nest deeper than [`MAX_NESTING`], or the lines of the listing are longer than
/// [`MAX_LISTING`](crate::MAX_LISTING). Nothing is allocated then.
pub fn listing_rows(
    alloc: Global,
    module: &Module,
    info: &ModuleInfo,
) -> Result<Vec<ListingRow>, AllocError>
    requires handles { HandlesOK (module_view «module».now) }
    requires laid { AreLaid (module_view «module».now) }
    requires layouts { AreLayoutsIn (module_view «module».now) info.now }
    ensures { IfOk result (λ rows. listing_lines rows.items ≡ leaf_report (module_view «module».now)) }
{
    let mut out = Listing::new(alloc);
    for number in 0..module.global_variables.len() {
        let variable = &module.global_variables[Handle::at(number)];
        add_variable(alloc, module, info, number, variable, &mut out)?;
    }
    Ok(out.into_rows())
}
