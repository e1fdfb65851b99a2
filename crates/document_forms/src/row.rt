// The trait of rows, which encode a tuple as consecutive array elements, and rows of any length.
ghost use Rattle.std.specs.Prelude.{◌≡◌, option_map};
ghost use Rattle.serde_json.specs.View.{view as data_of, items_view};
ghost use Rattle.document_forms.specs.found.Answers.{Answers};
ghost use Rattle.document_forms.specs.found.Exact.{RowOf};
ghost use Rattle.document_forms.specs.found.Decide.{first, array_of};
ghost use Rattle.document_forms.specs.found.Forms.{ends, ◌▹◌, an_array};

use crate::error::ReadError;
use crate::form::{Form, read_at};
use crate::take::{Take, take_at};
use crate::wanted::Wanted;
use serde_json::Value;
use std::alloc::Global;
use std::marker::PhantomData;

/// An encoding as consecutive array elements with none after them, with its decoder.
pub trait Row {
    /// The decoded type.
    type Items: Drop;

    /// Its view as plain data.
    ghost Plain: { Type 0 };

    ghost view: { Self.Items → Plain };

    ghost form: { RowOf Plain };

    /// Decodes the items that the elements encode. The first element has the index `index`.
    fn read(alloc: Global, items: &[Value], index: usize) -> Result<Self::Items, ReadError>
        ensures { Answers result (λ found. option_map view found ≡ form.find (items_view items.now)) };
}

/// A row whose elements are freed while they are decoded.
pub trait TakeRow: Row {
    /// Decodes and takes the elements. The first element has the index `index`.
    fn take(alloc: Global, items: &mut [Value], index: usize) -> Result<Self::Items, ReadError>
        ensures { Answers result (λ found. option_map Self.view found ≡ Self.form.find (items_view items.old)) };
}

/// Decodes the elements after a tag.
pub fn read_items<R: Row>(alloc: Global, items: &[Value]) -> Result<R::Items, ReadError>
    ensures { Answers result (λ found. option_map R.view found ≡ R.form.find (items_view items.now)) }
{
    R::read(alloc, items, 1)
}

/// Decodes the elements of an array.
pub fn read_row<R: Row>(alloc: Global, value: &Value) -> Result<R::Items, ReadError>
    ensures { Answers result (λ found. option_map R.view found ≡ array_of R.form.find (data_of value.now)) }
{
    let Some(items) = value.as_array() else {
        return Err(ReadError::here(Wanted::Row));
    };
    R::read(alloc, items, 0)
}

/// Decodes the elements of an array, and frees it.
pub fn take_row<R: TakeRow>(alloc: Global, value: Value) -> Result<R::Items, ReadError>
    ensures { Answers result (λ found. option_map R.view found ≡ array_of R.form.find (data_of value)) }
{
    let Value::Array(items) = value else {
        return Err(ReadError::here(Wanted::Row));
    };
    let mut items = items;
    R::take(alloc, &mut items, 0)
}

/// The first element, which has the index `index`, and the elements after it.
pub fn split_part(items: &[Value], index: usize) -> Result<(&Value, &[Value]), ReadError>
    ensures { Answers result (λ found. option_map (λ t. (data_of t.0.now, items_view t.1.now)) found ≡ first (items_view items.now)) }
{
    let Some(parts) = items.split_first() else {
        return Err(ReadError::here(Wanted::FurtherPart).at(index));
    };
    Ok(parts)
}

/// Takes the first element, which has the index `index`, and returns it with those after it.
pub fn take_part(items: &mut [Value], index: usize) -> Result<(Value, &mut [Value]), ReadError>
    ensures { Answers result (λ found. option_map (λ t. (data_of t.0, items_view t.1.now)) found ≡ first (items_view items.old)) }
{
    let Some((item, rest)) = items.split_first_mut() else {
        return Err(ReadError::here(Wanted::FurtherPart).at(index));
    };
    Ok((item.take(), rest))
}

/// The empty row.
pub struct End;

impl Row for End {
    type Items = ();

    ghost Plain = { Unit {0} };

    ghost view = { λ _. tt };

    ghost form = { ends };

    fn read(_alloc: Global, items: &[Value], index: usize) -> Result<(), ReadError> {
        match items.split_first() {
            None => Ok(()),
            Some(_) => Err(ReadError::here(Wanted::NothingMore).at(index)),
        }
    }
}

impl TakeRow for End {
    fn take(alloc: Global, items: &mut [Value], index: usize) -> Result<(), ReadError> {
        End::read(alloc, items, index)
    }
}

/// An element of one form, followed by a row.
pub struct Then<F, R>(PhantomData<F>, PhantomData<R>);

impl<F: Form, R: Row> Row for Then<F, R> {
    type Items = (F::Item, R::Items);

    ghost Plain = { F.Plain × R.Plain };

    ghost view = { λ t. (F.view t.0, R.view t.1) };

    ghost form = { F.form ▹ R.form };

    fn read(
        alloc: Global,
        items: &[Value],
        index: usize,
    ) -> Result<(F::Item, R::Items), ReadError> {
        let (item, rest) = split_part(items, index)?;
        let part = read_at::<F>(alloc, item, index)?;
        let rest = R::read(alloc, rest, index.saturating_add(1))?;
        Ok((part, rest))
    }
}

impl<F: Take, R: TakeRow> TakeRow for Then<F, R> {
    fn take(
        alloc: Global,
        items: &mut [Value],
        index: usize,
    ) -> Result<(F::Item, R::Items), ReadError> {
        let (item, rest) = take_part(items, index)?;
        let part = take_at::<F>(alloc, item, index)?;
        let rest = R::take(alloc, rest, index.saturating_add(1))?;
        Ok((part, rest))
    }
}

/// An array with exactly the elements of a row.
pub struct InArray<R>(PhantomData<R>);

impl<R: Row> Form for InArray<R> {
    type Item = R::Items;

    ghost Plain = { R.Plain };

    ghost view = { R.view };

    ghost form = { an_array R.form };

    fn read(alloc: Global, value: &Value) -> Result<R::Items, ReadError> {
        read_row::<R>(alloc, value)
    }
}
