// Lists of items, in any collection.
ghost use Rattle.std.specs.Prelude.{◌≡◌, ◌≢◌, List, [], ◌∷◌, ◌++◌, Some, map, IfOk, IfErr, OnOk};
ghost use Rattle.serde_json.specs.View.{view as data_of, items_view};
ghost use Rattle.document_forms.specs.found.Decide.{each, all_of};
ghost use Rattle.document_forms.specs.found.Forms.{a_list};
ghost use Rattle.document_forms.specs.found.Refusals.{NoneTaken};
ghost use Rattle.document_forms.specs.declared.error.ReadError.TheVariants.{Memory};

use crate::error::ReadError;
use crate::form::{Form, read_at};
use crate::grow::Grow;
use crate::take::{Take, take_at};
use crate::wanted::Wanted;
use ir_arena::arena::Arena;
use serde_json::Value;
use std::alloc::Global;
use std::marker::PhantomData;

// Appends an item; an error is at this index.
fn add_at<F: Form, C: Grow<F>>(all: &mut C, item: F::Item, index: usize) -> Result<(), ReadError>
    ensures added { OnOk result (C.items all.new ≡ C.items all.old ++ item ∷ []) }
    ensures refused { IfErr result (λ e. e ≢ Memory → C.refuses (C.items all.old) item) }
{
    all.add(item).map_err(|e| e.at(index))
}

/// Decodes all elements of an array, in order. An error other than out of memory says that the value encodes no such
/// list, or that the collection rejects one of its items after those before it.
pub fn read_all<F: Form, C: Grow<F>>(alloc: Global, value: &Value) -> Result<C, ReadError>
    ensures found { IfOk result (λ c. Some (map F.view (C.items c)) ≡ all_of F.form.find (data_of value.now)) }
    ensures refused { IfErr result (λ e. e ≢ Memory → NoneTaken C.refuses F.view (all_of F.form.find (data_of value.now))) }
{
    let Some(items) = value.as_array() else {
        return Err(ReadError::here(Wanted::List));
    };
    let mut found = C::with_room(alloc, items.len())?;
    let mut index = 0usize;
    for item in items {
        let next = read_at::<F>(alloc, item, index)?;
        add_at::<F, C>(&mut found, next, index)?;
        index = index.saturating_add(1);
    }
    Ok(found)
}

/// Decodes and frees the elements of an array one by one.
pub fn take_all<F: Take, C: Grow<F>>(alloc: Global, value: Value) -> Result<C, ReadError>
    ensures found { IfOk result (λ c. Some (map F.view (C.items c)) ≡ all_of F.form.find (data_of value)) }
    ensures refused { IfErr result (λ e. e ≢ Memory → NoneTaken C.refuses F.view (all_of F.form.find (data_of value))) }
{
    let Value::Array(items) = value else {
        return Err(ReadError::here(Wanted::List));
    };
    let empty = C::with_room(alloc, items.len())?;
    take_items::<F, C>(alloc, items, empty)
}

/// Decodes and frees the elements of an array one by one, into an empty collection.
pub fn take_into<F: Take, C: Grow<F>>(alloc: Global, value: Value, empty: C) -> Result<C, ReadError>
    requires { C.items empty ≡ [] }
    ensures found { IfOk result (λ c. Some (map F.view (C.items c)) ≡ all_of F.form.find (data_of value)) }
    ensures refused { IfErr result (λ e. e ≢ Memory → NoneTaken C.refuses F.view (all_of F.form.find (data_of value))) }
{
    let Value::Array(written) = value else {
        return Err(ReadError::here(Wanted::List));
    };
    take_items::<F, C>(alloc, written, empty)
}

// Decodes and frees these array elements one by one, into an empty collection.
fn take_items<F: Take, C: Grow<F>>(
    alloc: Global,
    items: Vec<Value>,
    empty: C,
) -> Result<C, ReadError>
    requires { C.items empty ≡ [] }
    ensures found { IfOk result (λ c. Some (map F.view (C.items c)) ≡ each F.form.find (items_view items.items)) }
    ensures refused { IfErr result (λ e. e ≢ Memory → NoneTaken C.refuses F.view (each F.form.find (items_view items.items))) }
{
    let mut found = empty;
    let mut index = 0usize;
    for item in items {
        let next = take_at::<F>(alloc, item, index)?;
        add_at::<F, C>(&mut found, next, index)?;
        index = index.saturating_add(1);
    }
    Ok(found)
}

/// A list of any length, as a `Vec`.
pub struct Each<F>(PhantomData<F>);

impl<F: Form> Form for Each<F> {
    type Item = Vec<F::Item>;

    ghost Plain = { List F.Plain };

    ghost view = { λ v. map F.view v.items };

    ghost form = { a_list F.form };

    fn read(alloc: Global, value: &Value) -> Result<Vec<F::Item>, ReadError> {
        read_all::<F, Vec<F::Item>>(alloc, value)
    }
}

impl<F: Take> Take for Each<F> {
    fn take(alloc: Global, value: Value) -> Result<Vec<F::Item>, ReadError> {
        take_all::<F, Vec<F::Item>>(alloc, value)
    }
}

/// A list of any length, as an arena: the index in the list is the handle, and no item has a span.
pub struct InArena<F, K>(PhantomData<F>, PhantomData<K>);

impl<F: Form, K> Form for InArena<F, K> {
    type Item = Arena<F::Item, K>;

    ghost Plain = { List F.Plain };

    ghost view = { λ a. map F.view (map (λ e. e.0) a) };

    ghost form = { a_list F.form };

    fn read(alloc: Global, value: &Value) -> Result<Arena<F::Item, K>, ReadError> {
        read_all::<F, Arena<F::Item, K>>(alloc, value)
    }
}

impl<F: Take, K> Take for InArena<F, K> {
    fn take(alloc: Global, value: Value) -> Result<Arena<F::Item, K>, ReadError> {
        take_all::<F, Arena<F::Item, K>>(alloc, value)
    }
}
