//! JSON that is written token by token, so that only the text is in memory: what a token writes, and the rows of a report and of
//! a listing as values.
#![tactic(auto)]

mod reported;
mod tokens;

pub use reported::{put_uses, write_buffers, write_entries, write_uses};
pub use tokens::{
    boolean_token, close_array, close_object, key, null, number, open_array, open_object, optional,
    put_number, put_optional, put_text, text, text_token,
};
