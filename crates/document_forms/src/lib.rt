//! JSON forms: how single items and sequences of items are encoded as JSON values, and their decoders.
#![tactic(auto)]

mod error;
mod form;
mod grow;
mod limits;
mod lists;
mod numbers;
mod row;
mod tags;
mod take;
mod tuples;
mod wanted;
mod words;

pub use error::{Place, ReadError};
pub use form::{Form, Maybe, Text, Truth, is_unique, read_at, read_form};
pub use grow::Grow;
pub use limits::{
    MAX_DEPTH, MAX_HANDLE, MAX_I16, MAX_I32, MAX_I64, MAX_U8, MAX_U16, MAX_U32, MAX_U64,
};
pub use lists::{Each, InArena, read_all, take_all, take_into};
pub use numbers::{At, I16, I32, I64, Side, Size, U8, U16, U32, U64, signed, unsigned};
pub use row::{
    End, InArray, Row, TakeRow, Then, read_items, read_row, split_part, take_part, take_row,
};
pub use tags::{read_tag, split_tag};
pub use take::{Take, Whole, take_at};
pub use wanted::Wanted;
pub use words::{SetOf, WordOf, read_word};
