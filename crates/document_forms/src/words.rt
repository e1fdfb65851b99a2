// Words of a table, and sets of words.
ghost use Rattle.std.specs.Prelude.{◌≡◌, option_map};
ghost use Rattle.serde_json.specs.View.{view as data_of};
ghost use Rattle.document_forms.specs.found.Answers.{Answers};
ghost use Rattle.document_forms.specs.found.Decide.{word_in, set_of};
ghost use Rattle.document_forms.specs.found.Forms.{a_word, a_set};

use crate::error::ReadError;
use crate::form::{Form, read_at};
use crate::wanted::Wanted;
use document_words::{SetWord, Word, find_word};
use serde_json::Value;
use std::alloc::Global;
use std::marker::PhantomData;

/// Decodes the word of a table.
pub fn read_word<W: Word>(value: &Value) -> Result<W, ReadError>
    ensures { Answers result (λ found. found ≡ word_in W.table (data_of value.now)) }
{
    let Some(text) = value.as_str() else {
        return Err(ReadError::here(Wanted::Word));
    };
    match find_word(text) {
        Some(word) => Ok(word),
        None => Err(ReadError::here(Wanted::Word)),
    }
}

/// A word of a table.
pub struct WordOf<W>(PhantomData<W>);

impl<W: Word> Form for WordOf<W> {
    type Item = W;

    ghost Plain = { W };

    ghost view = { λ w. w };

    ghost form = { a_word W.table };

    fn read(_alloc: Global, value: &Value) -> Result<W, ReadError> {
        read_word(value)
    }
}

/// An array of words in any order, repeated or not, which encodes the union of the sets that the words denote.
pub struct SetOf<S>(PhantomData<S>);

impl<S: SetWord> Form for SetOf<S> {
    type Item = S;

    ghost Plain = { S };

    ghost view = { λ s. s };

    ghost form = { a_set S.Word.table S.none S.union };

    fn read(alloc: Global, value: &Value) -> Result<S, ReadError> {
        let Some(items) = value.as_array() else {
            return Err(ReadError::here(Wanted::Set));
        };
        let mut found = S::none();
        let mut index = 0usize;
        for item in items {
            let word = read_at::<WordOf<S>>(alloc, item, index)?;
            found = found.with(word);
            index = index.saturating_add(1);
        }
        Ok(found)
    }
}
