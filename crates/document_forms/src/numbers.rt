// Integers.
ghost use Rattle.std.specs.Prelude.{◌≡◌, ◌≤◌, ◌≤ℤ◌, ℕ, ℤ, pos, negsuc, option_map, option_and_then, IfOk};
ghost use Rattle.serde_json.specs.Find.{as_number, as_i64};
ghost use Rattle.serde_json.specs.View.{view as data_of};
ghost use Rattle.ir_kinds.specs.declared.scalars.VectorSize.{VectorSize};
ghost use Rattle.ir_kinds.specs.declared.scalars.CooperativeSize.{CooperativeSize};
ghost use Rattle.document_forms.specs.declared.limits.TheConstants.{MAX_I64};
ghost use Rattle.document_forms.specs.found.Answers.{Answers};
ghost use Rattle.document_forms.specs.found.Decide.{number_of, below_zero, signed_of, size_in, side_in};
ghost use Rattle.document_forms.specs.found.Forms.{a_u8, a_u16, a_u32, a_u64, a_handle, a_i16, a_i32, a_i64, a_size, a_side};

use crate::error::ReadError;
use crate::form::Form;
use crate::limits::{MAX_HANDLE, MAX_I16, MAX_I32, MAX_I64, MAX_U8, MAX_U16, MAX_U32, MAX_U64};
use crate::wanted::Wanted;
use ir_arena::handle::Handle;
use ir_kinds::{CooperativeSize, VectorSize};
use serde_json::Value;
use std::alloc::Global;
use std::marker::PhantomData;

/// An unsigned integer up to `high`.
pub fn unsigned(value: &Value, high: u64, wanted: Wanted) -> Result<u64, ReadError>
    ensures found { Answers result (λ found. found ≡ number_of high (data_of value.now)) }
    ensures in_range { IfOk result (λ n. n ≤ high) }
{
    match value.as_u64() {
        Some(number) if number <= high => Ok(number),
        _ => Err(ReadError::here(wanted)),
    }
}

/// An 8-bit unsigned integer.
pub struct U8;

impl Form for U8 {
    type Item = u8;

    ghost Plain = { ℕ };

    ghost view = { λ n. n };

    ghost form = { a_u8 };

    fn read(_alloc: Global, value: &Value) -> Result<u8, ReadError> {
        let number = unsigned(value, MAX_U8, Wanted::Unsigned8)?;
        Ok(number as u8)
    }
}

/// A 16-bit unsigned integer.
pub struct U16;

impl Form for U16 {
    type Item = u16;

    ghost Plain = { ℕ };

    ghost view = { λ n. n };

    ghost form = { a_u16 };

    fn read(_alloc: Global, value: &Value) -> Result<u16, ReadError> {
        let number = unsigned(value, MAX_U16, Wanted::Unsigned16)?;
        Ok(number as u16)
    }
}

/// A 32-bit unsigned integer.
pub struct U32;

impl Form for U32 {
    type Item = u32;

    ghost Plain = { ℕ };

    ghost view = { λ n. n };

    ghost form = { a_u32 };

    fn read(_alloc: Global, value: &Value) -> Result<u32, ReadError> {
        let number = unsigned(value, MAX_U32, Wanted::Unsigned32)?;
        Ok(number as u32)
    }
}

/// A 64-bit unsigned integer.
pub struct U64;

impl Form for U64 {
    type Item = u64;

    ghost Plain = { ℕ };

    ghost view = { λ n. n };

    ghost form = { a_u64 };

    fn read(_alloc: Global, value: &Value) -> Result<u64, ReadError> {
        unsigned(value, MAX_U64, Wanted::Unsigned64)
    }
}

/// A handle: the index of an item in its list, from 0.
pub struct At<K>(PhantomData<K>);

impl<K> Form for At<K> {
    type Item = Handle<K>;

    ghost Plain = { ℕ };

    ghost view = { λ h. h };

    ghost form = { a_handle };

    fn read(_alloc: Global, value: &Value) -> Result<Handle<K>, ReadError> {
        let number = unsigned(value, MAX_HANDLE, Wanted::Handle)?;
        Ok(Handle::at(number as usize))
    }
}

/// A signed integer from `-(high + 1)` to `high`.
pub fn signed(value: &Value, high: u64, wanted: Wanted) -> Result<i64, ReadError>
    requires { high ≤ MAX_I64 }
    ensures found { Answers result (λ found. found ≡ signed_of high (data_of value.now)) }
    ensures in_range { IfOk result (λ n. (negsuc high ≤ℤ n) × (n ≤ℤ pos high)) }
{
    match value.as_u64() {
        Some(number) if number <= high => Ok(number as i64),
        Some(_) => Err(ReadError::here(wanted)),
        None => below_zero(value, high, wanted),
    }
}

// The number if it is negative.
fn below_zero(value: &Value, high: u64, wanted: Wanted) -> Result<i64, ReadError>
    requires { high ≤ MAX_I64 }
    ensures found { Answers result (λ found. found ≡ option_and_then (below_zero high) (option_and_then as_i64 (as_number (data_of value.now)))) }
    ensures in_range { IfOk result (λ n. (negsuc high ≤ℤ n) × (n ≤ℤ pos high)) }
{
    match value.as_i64() {
        Some(number) if number < 0 && -(high as i64) - 1 <= number => Ok(number),
        _ => Err(ReadError::here(wanted)),
    }
}

/// A 16-bit signed integer.
pub struct I16;

impl Form for I16 {
    type Item = i16;

    ghost Plain = { ℤ };

    ghost view = { λ n. n };

    ghost form = { a_i16 };

    fn read(_alloc: Global, value: &Value) -> Result<i16, ReadError> {
        let number = signed(value, MAX_I16, Wanted::Signed16)?;
        Ok(number as i16)
    }
}

/// A 32-bit signed integer.
pub struct I32;

impl Form for I32 {
    type Item = i32;

    ghost Plain = { ℤ };

    ghost view = { λ n. n };

    ghost form = { a_i32 };

    fn read(_alloc: Global, value: &Value) -> Result<i32, ReadError> {
        let number = signed(value, MAX_I32, Wanted::Signed32)?;
        Ok(number as i32)
    }
}

/// A 64-bit signed integer.
pub struct I64;

impl Form for I64 {
    type Item = i64;

    ghost Plain = { ℤ };

    ghost view = { λ n. n };

    ghost form = { a_i64 };

    fn read(_alloc: Global, value: &Value) -> Result<i64, ReadError> {
        signed(value, MAX_I64, Wanted::Signed64)
    }
}

/// The size of a vector, or the number of columns or rows of a matrix.
pub struct Size;

fn size_in(number: u64) -> Result<VectorSize, ReadError>
    ensures { Answers result (λ found. found ≡ size_in number) }
{
    match number {
        2 => Ok(VectorSize::Bi),
        3 => Ok(VectorSize::Tri),
        4 => Ok(VectorSize::Quad),
        _ => Err(ReadError::here(Wanted::VectorSize)),
    }
}

impl Form for Size {
    type Item = VectorSize;

    ghost Plain = { VectorSize };

    ghost view = { λ s. s };

    ghost form = { a_size };

    fn read(_alloc: Global, value: &Value) -> Result<VectorSize, ReadError> {
        let Some(number) = value.as_u64() else {
            return Err(ReadError::here(Wanted::VectorSize));
        };
        size_in(number)
    }
}

/// The number of columns or rows of a cooperative matrix.
pub struct Side;

fn side_in(number: u64) -> Result<CooperativeSize, ReadError>
    ensures { Answers result (λ found. found ≡ side_in number) }
{
    match number {
        8 => Ok(CooperativeSize::Eight),
        16 => Ok(CooperativeSize::Sixteen),
        _ => Err(ReadError::here(Wanted::CooperativeSize)),
    }
}

impl Form for Side {
    type Item = CooperativeSize;

    ghost Plain = { CooperativeSize };

    ghost view = { λ s. s };

    ghost form = { a_side };

    fn read(_alloc: Global, value: &Value) -> Result<CooperativeSize, ReadError> {
        let Some(number) = value.as_u64() else {
            return Err(ReadError::here(Wanted::CooperativeSize));
        };
        side_in(number)
    }
}
