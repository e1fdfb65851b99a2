// The tag at the start of an array.
ghost use Rattle.std.specs.Prelude.{◌≡◌, option_map};
ghost use Rattle.serde_json.specs.View.{view as data_of, items_view};
ghost use Rattle.document_forms.specs.found.Answers.{Answers};
ghost use Rattle.document_forms.specs.found.Decide.{tag_of, tag_in};

use crate::error::ReadError;
use crate::wanted::Wanted;
use crate::words::read_word;
use document_words::Word;
use serde_json::Value;

/// Decodes the tag, and returns it with the elements after it. The tag has the index `index`.
pub fn split_tag<W: Word>(items: &[Value], index: usize) -> Result<(W, &[Value]), ReadError>
    ensures { Answers result (λ found. option_map (λ t. (t.0, items_view t.1.now)) found ≡ tag_of W.table (items_view items.now)) }
{
    let Some((item, rest)) = items.split_first() else {
        return Err(ReadError::here(Wanted::FurtherPart).at(index));
    };
    match read_word(item) {
        Ok(kind) => Ok((kind, rest)),
        Err(error) => Err(error.at(index)),
    }
}

/// Decodes the tag of an array, and returns it with the elements after it.
pub fn read_tag<W: Word>(value: &Value) -> Result<(W, &[Value]), ReadError>
    ensures { Answers result (λ found. option_map (λ t. (t.0, items_view t.1.now)) found ≡ tag_in W.table (data_of value.now)) }
{
    let Some(items) = value.as_array() else {
        return Err(ReadError::here(Wanted::Tagged));
    };
    split_tag(items, 0)
}
