//! Values and members of a JSON text, token by token.

ghost use Rattle.std.specs.Prelude.{◌∷◌, [], OnOk, decimal};
ghost use Rattle.json.specs.Token.{begin_array, begin_object, boolean as boolean_token, end_array, end_object, key as key_token, null as null_token, number as number_token, string as string_token};
ghost use Rattle.check_json.specs.Written.{Adds, AddsMembers, IsValue};

use json::Writer;
use std::alloc::AllocError;

/// Writes `{`.
#[tactic(auto, using(crate::proofs::Values::written))]
pub fn open_object(w: &mut Writer) -> Result<(), AllocError>
    ensures { OnOk result (Adds (begin_object ∷ []) w.old w.new) }
{
    w.begin_object()
}

/// Writes `}`.
#[tactic(auto, using(crate::proofs::Values::written))]
pub fn close_object(w: &mut Writer) -> Result<(), AllocError>
    ensures { OnOk result (Adds (end_object ∷ []) w.old w.new) }
{
    w.end_object()
}

/// Writes `[`.
#[tactic(auto, using(crate::proofs::Values::written))]
pub fn open_array(w: &mut Writer) -> Result<(), AllocError>
    ensures { OnOk result (Adds (begin_array ∷ []) w.old w.new) }
{
    w.begin_array()
}

/// Writes `]`.
#[tactic(auto, using(crate::proofs::Values::written))]
pub fn close_array(w: &mut Writer) -> Result<(), AllocError>
    ensures { OnOk result (Adds (end_array ∷ []) w.old w.new) }
{
    w.end_array()
}

/// Writes a key.
#[tactic(auto, using(crate::proofs::Values::written))]
pub fn key(w: &mut Writer, key: &str) -> Result<(), AllocError>
    ensures { OnOk result (Adds (key_token key.now ∷ []) w.old w.new) }
{
    w.key(key)
}

/// Writes the token of a string.
#[tactic(auto, using(crate::proofs::Values::written))]
pub fn text_token(w: &mut Writer, text: &str) -> Result<(), AllocError>
    ensures { OnOk result (Adds (string_token text.now ∷ []) w.old w.new) }
{
    w.string(text)
}

// Writes the token of a number.
#[tactic(auto, using(crate::proofs::Values::written))]
fn number_token(w: &mut Writer, number: u64) -> Result<(), AllocError>
    ensures { OnOk result (Adds (number_token (decimal number) ∷ []) w.old w.new) }
{
    w.u64(number)
}

/// Writes the token of a truth value.
#[tactic(auto, using(crate::proofs::Values::written))]
pub fn boolean_token(w: &mut Writer, holds: bool) -> Result<(), AllocError>
    ensures { OnOk result (Adds (boolean_token holds ∷ []) w.old w.new) }
{
    w.boolean(holds)
}

// Writes the token of `null`.
#[tactic(auto, using(crate::proofs::Values::written))]
fn null_token(w: &mut Writer) -> Result<(), AllocError>
    ensures { OnOk result (Adds (null_token ∷ []) w.old w.new) }
{
    w.null()
}

/// Writes a string.
#[tactic(auto, using(crate::proofs::Values::text_value))]
pub fn text(w: &mut Writer, text: &str) -> Result<(), AllocError>
    ensures { OnOk result (IsValue w.old w.new) }
{
    text_token(w, text)?;
    Ok(())
}

/// Writes a number.
#[tactic(auto, using(crate::proofs::Values::number_value))]
pub fn number(w: &mut Writer, number: u64) -> Result<(), AllocError>
    ensures { OnOk result (IsValue w.old w.new) }
{
    number_token(w, number)?;
    Ok(())
}

/// Writes `null`.
#[tactic(auto, using(crate::proofs::Values::null_value))]
pub fn null(w: &mut Writer) -> Result<(), AllocError>
    ensures { OnOk result (IsValue w.old w.new) }
{
    null_token(w)?;
    Ok(())
}

/// Writes a number, or `null`.
pub fn optional(w: &mut Writer, found: Option<u64>) -> Result<(), AllocError>
    ensures { OnOk result (IsValue w.old w.new) }
{
    match found {
        Some(found) => number(w, found),
        None => null(w),
    }
}

/// Writes a string at a key.
#[tactic(auto, using(crate::proofs::Values::one_member))]
pub fn put_text(w: &mut Writer, name: &str, value: &str) -> Result<(), AllocError>
    ensures { OnOk result (AddsMembers w.old w.new) }
{
    key(w, name)?;
    text(w, value)?;
    Ok(())
}

/// Writes a number at a key.
#[tactic(auto, using(crate::proofs::Values::one_member))]
pub fn put_number(w: &mut Writer, name: &str, value: u64) -> Result<(), AllocError>
    ensures { OnOk result (AddsMembers w.old w.new) }
{
    key(w, name)?;
    number(w, value)?;
    Ok(())
}

/// Writes a number, or `null`, at a key.
#[tactic(auto, using(crate::proofs::Values::one_member))]
pub fn put_optional(w: &mut Writer, name: &str, value: Option<u64>) -> Result<(), AllocError>
    ensures { OnOk result (AddsMembers w.old w.new) }
{
    key(w, name)?;
    optional(w, value)?;
    Ok(())
}
