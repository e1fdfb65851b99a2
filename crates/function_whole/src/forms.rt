//! The forms of the types of a function's expressions.

ghost use Rattle.std.specs.Prelude.{◌≡◌, ◌≤◌, IfOk, length, map};
ghost use Rattle.typing_forms.specs.judged.Resolutions.{types_view};
ghost use Rattle.typing_errors.specs.Answers.{form_given};

use function_interface::Lower;
use ir_arena::handle::Handle;
use ir_sets::unique_arena::UniqueArena;
use ir_types::{IrType, key};
use std::alloc::{AllocError, Global};
use typing_forms::{Form, form_of};

/// The form of the type of each expression, by its type in the information. The error is out of memory.
pub(crate) fn forms_of<L: Lower>(
    lower: &L,
    alloc: Global,
    types: &UniqueArena<IrType, key::IrType>,
    info: &L::Info,
    count: usize,
) -> Result<Vec<Form>, AllocError>
    requires many { count ≡ length (L.types lower.now info.now) }
    requires within { count ≤ 4294967295 }
    ensures { IfOk result (λ forms. forms.items ≡ map (form_given (types_view types.now)) (L.types lower.now info.now)) }
{
    let mut forms = Vec::with_capacity(alloc, count)?;
    for index in 0..count {
        let resolution = lower.resolution(info, Handle::at(index));
        forms.push(form_of(types, resolution))?;
    }
    Ok(forms)
}
