// The `TypeInfo`s of types, and the error of the first invalid one.
ghost use Rattle.std.specs.Prelude.{◌≡◌, length};
ghost use Rattle.typing_forms.specs.judged.Order.{TypesGoBack};
ghost use Rattle.typing_forms.specs.judged.Resolutions.{types_view};
ghost use Rattle.typing_layout.specs.found.Held.{AreLayouts};

use ir_flags::Capabilities;
use ir_sets::unique_arena::UniqueArena;
use ir_types::refusal::Refusal;
use ir_types::{IrType, key};
use module_steps::{InvalidType, validate_types};
use std::alloc::{AllocError, Global};
use test_support::call::{completed, freeing, push};
use typing_forms::types_go_back;
use typing_layout::{LayoutError, Layouter, TypeError, TypeInfo};

/// The answer about the types of a module.
#[derive(Clone, Copy)]
pub enum Reported {
    /// The `TypeInfo` of each, or the error of the first invalid one.
    Infos,
    /// The invalid one, if any.
    Refusal,
}

// The flags of a type, and whether it is valid in storage buffers, in uniform buffers and in immediate data.
fn info_told(alloc: Global, info: &TypeInfo) -> Result<String, AllocError> {
    format!(in alloc;
        "{} {} {} {};",
        info.flags.0,
        u32::from(info.storage_layout.is_ok()),
        u32::from(info.uniform_layout.is_ok()),
        u32::from(info.immediates_compatibility.is_ok())
    )
}

// Prints the `TypeInfo`s of types.
fn tell_infos(alloc: Global, told: &mut String, infos: &[TypeInfo]) -> Result<(), AllocError> {
    for info in infos {
        push(told, info_told(alloc, info))?;
    }
    Ok(())
}

// The `TypeInfo`s of types.
fn accepted_told(alloc: Global, asked: Reported, infos: &[TypeInfo]) -> Result<String, AllocError> {
    if let Reported::Refusal = asked {
        return String::from_str(alloc, "accepted");
    }
    let mut told = String::new(alloc);
    completed(tell_infos(alloc, &mut told, infos), told)
}

// The first invalid type, and its error; the fields of the error of blend sources are not printed.
fn refused_reported(
    alloc: Global,
    asked: Reported,
    refused: &InvalidType,
) -> Result<String, AllocError> {
    if let Reported::Refusal = asked {
        return format!(in alloc; "refused {}", refused.ty.index());
    }
    if let TypeError::InvalidBlendSrc(_) = refused.error {
        return format!(in alloc; "refused {} InvalidBlendSrc", refused.ty.index());
    }
    format!(in alloc; "refused {} {:?}", refused.ty.index(), refused.error)
}

// The `TypeInfo`s of types with layouts, or the error of the first invalid one.
fn validated_told(
    alloc: Global,
    asked: Reported,
    capabilities: Capabilities,
    types: &UniqueArena<IrType, key::IrType>,
    layouter: &Layouter,
) -> Result<String, AllocError>
    requires back { TypesGoBack (types_view types.now) }
    requires held { AreLayouts (types_view types.now) layouter.now }
    requires all { length layouter.now ≡ length types.now }
{
    match validate_types(alloc, capabilities, false, types, layouter) {
        Ok(infos) => freeing(accepted_told(alloc, asked, infos.as_slice()), infos),
        Err(Refusal::Memory(error)) => Err(error),
        Err(Refusal::Fault(fault)) => {
            freeing(refused_reported(alloc, asked, fault.as_inner()), fault)
        }
    }
}

// The answer for types without layouts.
fn unlaid(alloc: Global, refusal: Refusal<LayoutError>) -> Result<String, AllocError> {
    match refusal {
        Refusal::Memory(error) => Err(error),
        Refusal::Fault(_) => String::from_str(alloc, "no layout"),
    }
}

/// The answer about the types.
pub fn infos_told(
    alloc: Global,
    asked: Reported,
    capabilities: Capabilities,
    types: &UniqueArena<IrType, key::IrType>,
) -> Result<String, AllocError> {
    if !types_go_back(types) {
        return String::from_str(alloc, "types do not go back");
    }
    let mut layouter = Layouter::new(alloc);
    match layouter.update(types) {
        Ok(()) => freeing(
            validated_told(alloc, asked, capabilities, types, &layouter),
            layouter,
        ),
        Err(refusal) => {
            drop(layouter);
            unlaid(alloc, refusal)
        }
    }
}
