//! The forms of the types of expressions, computed once for all of them.

ghost use Rattle.std.specs.Prelude.{◌≡◌, IfOk, map};
ghost use Rattle.typing_forms.specs.judged.Resolutions.{types_view};
ghost use Rattle.typing_errors.specs.Answers.{form_given};

use ir_sets::unique_arena::UniqueArena;
use ir_types::{IrType, key};
use std::alloc::{AllocError, Global};
use typing_forms::{Form, TypeResolution, form_of};

/// The forms of these types, in order. The error is out of memory.
pub fn forms_given(
    alloc: Global,
    types: &UniqueArena<IrType, key::IrType>,
    resolutions: &[TypeResolution],
) -> Result<Vec<Form>, AllocError>
    ensures { IfOk result (λ forms. forms.items ≡ map (form_given (types_view types.now)) resolutions.now) }
{
    let mut forms = Vec::with_capacity(alloc, resolutions.len())?;
    for resolution in resolutions {
        forms.push(form_of(types, resolution))?;
    }
    Ok(forms)
}
