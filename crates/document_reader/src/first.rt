// The first element of a row, and the elements after it.
ghost use Rattle.std.specs.Prelude.{◌≡◌, option_map};
ghost use Rattle.serde_json.specs.View.{items_view};
ghost use Rattle.document_forms.specs.found.Answers.{Answers};
ghost use Rattle.document_reader.specs.found.Documents.{first_part};

use document_forms::{Form, ReadError, read_at, take_part};
use serde_json::Value;
use std::alloc::Global;

/// Takes and decodes the first element, which has the index `index`, and returns it with the elements after it.
pub fn take_first<F: Form>(
    alloc: Global,
    parts: &mut [Value],
    index: usize,
) -> Result<(F::Item, &mut [Value]), ReadError>
    ensures { Answers result (λ found. option_map (λ t. (F.view t.0, items_view t.1.now)) found ≡ first_part F.form.find (items_view parts.old)) }
{
    let (first, rest) = take_part(parts, index)?;
    let item = read_at::<F>(alloc, &first, index)?;
    Ok((item, rest))
}
