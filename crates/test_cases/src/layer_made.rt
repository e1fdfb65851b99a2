// The small layer, made for a module.

ghost use Rattle.std.specs.Prelude.{IfOk, IfSome};
ghost use Rattle.function_interface.specs.Reported.{AreReported};
ghost use Rattle.ir_items.specs.found.View.{module_view};
ghost use Rattle.function_tiny_lower.specs.Readings.{IsMadeOf};
ghost use Rattle.typing_forms.specs.judged.Resolutions.{types_view};

use function_tiny_lower::TinyLower;
use ir_flags::Capabilities;
use ir_items::Module;
use ir_sets::unique_arena::UniqueArena;
use ir_types::refusal::Refusal;
use ir_types::{IrType, key};
use module_steps::validate_types;
use std::alloc::{AllocError, Global};
use typing_forms::types_go_back;
use typing_layout::{Layouter, TypeInfo};

// The `TypeInfo`s of these types, if they are valid. The error is out of memory.
fn infos_of(
    alloc: Global,
    types: &UniqueArena<IrType, key::IrType>,
) -> Result<Option<Vec<TypeInfo>>, AllocError>
    ensures { IfOk result (λ found. IfSome found (λ infos. AreReported (types_view types.now) infos.items)) }
{
    if !types_go_back(types) {
        return Ok(None);
    }
    let mut layouter = Layouter::new(alloc);
    match layouter.update(types) {
        Ok(()) => {}
        Err(Refusal::Memory(error)) => return Err(error),
        Err(Refusal::Fault(_)) => return Ok(None),
    }
    match validate_types(alloc, Capabilities(0), false, types, &layouter) {
        Ok(infos) => Ok(Some(infos)),
        Err(Refusal::Memory(error)) => Err(error),
        Err(Refusal::Fault(_)) => Ok(None),
    }
}

/// The layer for a module, if its types are valid and it has no global variables. It has no types of global expressions: the
/// rules of functions need none. The error is out of memory.
pub fn lower_for(alloc: Global, module: &Module) -> Result<Option<TinyLower>, AllocError>
    ensures { IfOk result (λ found. IfSome found (λ lower. IsMadeOf (module_view «module».now) lower.infos.items)) }
{
    if !module.global_variables.is_empty() {
        return Ok(None);
    }
    match infos_of(alloc, &module.types) {
        Ok(Some(infos)) => Ok(Some(TinyLower::new(infos, Vec::new(alloc)))),
        Ok(None) => Ok(None),
        Err(error) => Err(error),
    }
}
