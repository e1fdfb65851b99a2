// Forms whose JSON value is freed while it is decoded.
ghost use Rattle.std.specs.Prelude.{◌≡◌, option_map};
ghost use Rattle.serde_json.specs.View.{view as data_of};
ghost use Rattle.document_forms.specs.found.Answers.{Answers};

use crate::error::ReadError;
use crate::form::Form;
use serde_json::Value;
use std::alloc::Global;
use std::marker::PhantomData;

/// A form whose JSON value is freed while it is decoded: a large one element by element, so that the value and the item are never
/// both allocated in full.
pub trait Take: Form {
    /// Decodes the item that the value encodes, and frees the value.
    fn take(alloc: Global, value: Value) -> Result<Self::Item, ReadError>
        ensures { Answers result (λ found. option_map Self.view found ≡ Self.form.find (data_of value)) };
}

/// Decodes and frees the value; it is the array element at this index.
pub fn take_at<F: Take>(alloc: Global, value: Value, index: usize) -> Result<F::Item, ReadError>
    ensures { Answers result (λ found. option_map F.view found ≡ F.form.find (data_of value)) }
{
    match F::take(alloc, value) {
        Ok(item) => Ok(item),
        Err(error) => Err(error.at(index)),
    }
}

/// This form, whose value is freed after it is decoded.
pub struct Whole<F>(PhantomData<F>);

impl<F: Form> Form for Whole<F> {
    type Item = F::Item;

    ghost Plain = { F.Plain };

    ghost view = { F.view };

    ghost form = { F.form };

    fn read(alloc: Global, value: &Value) -> Result<F::Item, ReadError> {
        F::read(alloc, value)
    }
}

impl<F: Form> Take for Whole<F> {
    fn take(alloc: Global, value: Value) -> Result<F::Item, ReadError> {
        F::read(alloc, &value)
    }
}
