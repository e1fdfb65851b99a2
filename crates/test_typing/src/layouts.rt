// The layouts of types.
ghost use Rattle.std.specs.Prelude.{◌≤◌, length};
ghost use Rattle.typing_forms.specs.judged.Resolutions.{types_view};
ghost use Rattle.typing_layout.specs.found.Held.{AreLayouts};

use ir_arena::handle::Handle;
use ir_sets::unique_arena::UniqueArena;
use ir_types::refusal::Refusal;
use ir_types::{IrType, key};
use std::alloc::{AllocError, Global};
use test_support::call::{completed, freeing, push};
use typing_forms::types_go_back;
use typing_layout::{LayoutError, Layouter, TypeLayout};

// The size, the alignment and the stride of a layout.
fn layout_told(alloc: Global, layout: TypeLayout) -> Result<String, AllocError> {
    format!(in alloc;
        "{} {} {};",
        layout.size,
        layout.alignment,
        layout.to_stride()
    )
}

// Prints the layouts of the first types.
fn tell_first(
    alloc: Global,
    told: &mut String,
    layouter: &Layouter,
    count: usize,
) -> Result<(), AllocError>
    requires all { count ≤ length layouter.now }
    requires in_range { count ≤ 4294967295 }
{
    for place in 0..count {
        push(told, layout_told(alloc, layouter[Handle::at(place)]))?;
    }
    Ok(())
}

// Prints the layouts of the types before one that has none, and its error.
fn tell_refused(
    alloc: Global,
    told: &mut String,
    layouter: &Layouter,
    error: &LayoutError,
) -> Result<(), AllocError>
    requires { error.now.ty ≤ length layouter.now }
{
    let index = error.ty.index();
    tell_first(alloc, told, layouter, index)?;
    push(told, format!(in alloc; "{index} {:?}", error.inner))
}

// Prints the layouts of types by a new layouter, and the first type that has none.
fn tell_layouts(
    alloc: Global,
    told: &mut String,
    layouter: &mut Layouter,
    types: &UniqueArena<IrType, key::IrType>,
) -> Result<(), AllocError>
    requires { AreLayouts (types_view types.now) layouter.old }
{
    if !types_go_back(types) {
        return told.push_str("types do not go back");
    }
    match layouter.update(types) {
        Ok(()) => tell_first(alloc, told, layouter, types.len()),
        Err(Refusal::Memory(error)) => Err(error),
        Err(Refusal::Fault(fault)) => {
            freeing(tell_refused(alloc, told, layouter, fault.as_inner()), fault)
        }
    }
}

/// The layouts of the types, and the first type that has none.
pub fn layouts_told(
    alloc: Global,
    types: &UniqueArena<IrType, key::IrType>,
) -> Result<String, AllocError> {
    let mut layouter = Layouter::new(alloc);
    let mut told = String::new(alloc);
    let done = tell_layouts(alloc, &mut told, &mut layouter, types);
    completed(freeing(done, layouter), told)
}

/// Whether the types can be laid out, as a word.
pub fn laid(
    alloc: Global,
    types: &UniqueArena<IrType, key::IrType>,
) -> Result<&'static str, AllocError> {
    let mut layouter = Layouter::new(alloc);
    if types_go_back(types) && layouter.update(types).is_ok() {
        return Ok("laid");
    }
    Ok("not laid")
}
