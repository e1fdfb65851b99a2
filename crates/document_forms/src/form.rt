// The trait of JSON forms, and the forms of bools, strings and options.
ghost use Rattle.std.specs.Prelude.{◌≡◌, ◌≢◌, ◌≤◌, ℕ, Bool, List, Option, option_map, string_bytes, IfOk, IfErr};
ghost use Rattle.serde_json.specs.Data.{Data, depth};
ghost use Rattle.serde_json.specs.View.{view as data_of};
ghost use Rattle.document_forms.specs.found.Answers.{Answers};
ghost use Rattle.document_forms.specs.found.Exact.{FormOf, deepest};
ghost use Rattle.document_forms.specs.found.Forms.{a_bool, a_text, maybe};
ghost use Rattle.document_forms.specs.declared.error.ReadError.TheVariants.{Memory};

use crate::error::ReadError;
use crate::wanted::Wanted;
use serde_json::Value;
use std::alloc::Global;
use std::marker::PhantomData;

/// A JSON encoding of one type of item, with its decoder. A marker type implements it, so that a crate can decode the types of
/// another crate.
pub trait Form {
    /// The decoded type.
    type Item: Drop;

    /// The view of an item as plain data.
    ghost Plain: { Type 0 };

    ghost view: { Self.Item → Plain };

    ghost form: { FormOf Plain };

    /// Decodes the item that the value encodes.
    fn read(alloc: Global, value: &Value) -> Result<Self::Item, ReadError>
        ensures { Answers result (λ found. option_map view found ≡ form.find (data_of value.now)) };
}

/// Decodes the item that the value encodes; the value is the array element at this index.
pub fn read_at<F: Form>(alloc: Global, value: &Value, index: usize) -> Result<F::Item, ReadError>
    ensures { Answers result (λ found. option_map F.view found ≡ F.form.find (data_of value.now)) }
{
    match F::read(alloc, value) {
        Ok(item) => Ok(item),
        Err(error) => Err(error.at(index)),
    }
}

/// Decodes the item that the value encodes. An error other than out of memory proves that it encodes none.
pub fn read_form<F: Form>(alloc: Global, value: &Value) -> Result<F::Item, ReadError>
    ensures ok { IfOk result (λ x. F.form.Written (F.view x) (data_of value.now)) }
    ensures malformed { IfErr result (λ e. e ≢ Memory → depth (data_of value.now) ≤ deepest → (x : F.Plain) → ¬ F.form.Written x (data_of value.now)) }
{
    F::read(alloc, value)
}

/// A value encodes at most one item.
pub fn is_unique<F: Form>()
    ensures { (d : Data) (x y : F.Plain) → depth d ≤ deepest → F.form.Written x d → F.form.Written y d → x ≡ y }
{}

/// `true` or `false`.
pub struct Truth;

impl Form for Truth {
    type Item = bool;

    ghost Plain = { Bool };

    ghost view = { λ b. b };

    ghost form = { a_bool };

    fn read(_alloc: Global, value: &Value) -> Result<bool, ReadError> {
        match value.as_bool() {
            Some(truth) => Ok(truth),
            None => Err(ReadError::here(Wanted::Truth)),
        }
    }
}

/// A string.
pub struct Text;

impl Form for Text {
    type Item = String;

    ghost Plain = { List ℕ };

    ghost view = { string_bytes };

    ghost form = { a_text };

    fn read(alloc: Global, value: &Value) -> Result<String, ReadError> {
        let Some(text) = value.as_str() else {
            return Err(ReadError::here(Wanted::Text));
        };
        Ok(String::from_str(alloc, text)?)
    }
}

/// An optional item: `null` if `None`.
pub struct Maybe<F>(PhantomData<F>);

impl<F: Form> Form for Maybe<F> {
    type Item = Option<F::Item>;

    ghost Plain = { Option F.Plain };

    ghost view = { option_map F.view };

    ghost form = { maybe F.form };

    fn read(alloc: Global, value: &Value) -> Result<Option<F::Item>, ReadError> {
        match value {
            Value::Null => Ok(None),
            _ => Ok(Some(F::read(alloc, value)?)),
        }
    }
}
