//! Uses of types.

ghost use Rattle.std.specs.Prelude.{◌↔◌, IsTrue, List};
ghost use Rattle.function_interface.specs.Reported.{AreReported};
ghost use Rattle.ir_types.specs.judged.Plain.{PlainType};
ghost use Rattle.typing_layout.specs.judged.Flags.{HasFlag, Argument, Constructible};
ghost use Rattle.typing_layout.specs.judged.View.{type_tree};

use bitflags::Flags;
use ir_arena::handle::Handle;
use ir_types::key;
use typing_layout::{TypeFlags, TypeInfo};

/// Whether a type can be that of arguments. A missing type is not refused here: the check of handles does.
pub(crate) fn is_argument(infos: &[TypeInfo], ty: Handle<key::IrType>) -> bool
    ensures { (types : List PlainType) → AreReported types infos.now → IsTrue result ↔ HasFlag Argument (type_tree types ty) }
{
    match infos.get(ty.index()) {
        Some(info) => info.flags.contains(TypeFlags::ARGUMENT),
        None => true,
    }
}

/// Whether a type is constructible.
pub(crate) fn is_constructible(infos: &[TypeInfo], ty: Handle<key::IrType>) -> bool
    ensures { (types : List PlainType) → AreReported types infos.now → IsTrue result ↔ HasFlag Constructible (type_tree types ty) }
{
    match infos.get(ty.index()) {
        Some(info) => info.flags.contains(TypeFlags::CONSTRUCTIBLE),
        None => false,
    }
}
