//! The JSON object of a valid module.

ghost use Rattle.std.specs.Prelude.{◌≡◌, ◌++◌, ◌∷◌, [], IfOk, OnOk, codes, string_bytes};
ghost use Rattle.json.specs.Lex.{tokens};
ghost use Rattle.json.specs.Print.{print};
ghost use Rattle.json.specs.Token.{boolean as boolean_token, key as key_token, string as string_token};
ghost use Rattle.check_json.specs.Written.{Adds, AddsItems, AddsMembers, IsAcceptedObject, IsAcceptedText, IsMember, IsValue};

use crate::names::Names;
use crate::parts::{uses_in, write_entry_names, write_globals};
use crate::roles::Roles;
use check_json::{
    boolean_token, close_array, close_object, key, open_array, open_object, text, text_token,
    write_buffers, write_entries,
};
use json::Writer;
use judgement_rows::{ListingRow, ReportRow, Uses};
use std::alloc::{AllocError, Global};

/// What is told of a valid module.
#[derive(Clone, Copy)]
pub struct Accepted<'a> {
    /// Whether scope was checked strictly.
    pub strict: bool,
    /// The names of its parts.
    pub names: &'a Names,
    /// What global variables are in SPIR-V.
    pub roles: &'a Roles,
    /// Its report.
    pub rows: &'a [ReportRow],
    /// The listing of its buffers, if requested.
    pub listing: Option<&'a [ListingRow]>,
    /// The skipped checks.
    pub without: &'a [&'static str],
}

// ---- the members

#[tactic(auto, using(check_json::proofs::Values::the_member))]
fn put_buffers(w: &mut Writer, accepted: &Accepted<'_>) -> Result<(), AllocError>
    ensures { OnOk result (IsMember (codes "buffers") w.old w.new) }
{
    key(w, "buffers")?;
    write_buffers(w, accepted.rows, accepted.listing)?;
    Ok(())
}

#[tactic(auto, using(check_json::proofs::Values::the_member))]
fn put_entry_names(w: &mut Writer, accepted: &Accepted<'_>) -> Result<(), AllocError>
    ensures { OnOk result (IsMember (codes "entries") w.old w.new) }
{
    key(w, "entries")?;
    write_entry_names(w, accepted.names)?;
    Ok(())
}

#[tactic(auto, using(check_json::proofs::Values::the_member))]
fn put_entries(w: &mut Writer, accepted: &Accepted<'_>) -> Result<(), AllocError>
    ensures { OnOk result (IsMember (codes "entry_points") w.old w.new) }
{
    key(w, "entry_points")?;
    write_entries(w, accepted.rows)?;
    Ok(())
}

#[tactic(auto, using(check_json::proofs::Values::the_member))]
fn put_globals(w: &mut Writer, uses: &[Uses], accepted: &Accepted<'_>) -> Result<(), AllocError>
    ensures { OnOk result (IsMember (codes "globals") w.old w.new) }
{
    key(w, "globals")?;
    write_globals(w, accepted.names, accepted.roles, uses)?;
    Ok(())
}

#[tactic(auto, using(check_json::proofs::Values::then_adds))]
fn put_strict(w: &mut Writer, strict: bool) -> Result<(), AllocError>
    ensures { OnOk result (Adds (key_token (codes "strict") ∷ boolean_token strict ∷ []) w.old w.new) }
{
    key(w, "strict")?;
    boolean_token(w, strict)?;
    Ok(())
}

#[tactic(auto, using(check_json::proofs::Values::then_adds))]
fn put_verdict(w: &mut Writer) -> Result<(), AllocError>
    ensures { OnOk result (Adds (key_token (codes "verdict") ∷ string_token (codes "accepted") ∷ []) w.old w.new) }
{
    key(w, "verdict")?;
    text_token(w, "accepted")?;
    Ok(())
}

#[tactic(auto, using(check_json::proofs::Values::no_item, check_json::proofs::Values::next_item))]
fn add_words(w: &mut Writer, words: &[&'static str]) -> Result<(), AllocError>
    ensures { OnOk result (AddsItems w.old w.new) }
{
    for word in words {
        text(w, *word)?;
    }
    Ok(())
}

#[tactic(auto, using(check_json::proofs::Values::array_value))]
fn write_words(w: &mut Writer, words: &[&'static str]) -> Result<(), AllocError>
    ensures { OnOk result (IsValue w.old w.new) }
{
    open_array(w)?;
    add_words(w, words)?;
    close_array(w)?;
    Ok(())
}

#[tactic(auto, using(check_json::proofs::Values::one_member))]
fn put_words(w: &mut Writer, words: &[&'static str]) -> Result<(), AllocError>
    ensures { OnOk result (AddsMembers w.old w.new) }
{
    key(w, "without")?;
    write_words(w, words)?;
    Ok(())
}

// The skipped checks, if there are any.
#[tactic(auto, using(check_json::proofs::Values::no_member))]
fn put_without(w: &mut Writer, words: &[&'static str]) -> Result<(), AllocError>
    ensures { OnOk result (AddsMembers w.old w.new) }
{
    if words.is_empty() {
        Ok(())
    } else {
        put_words(w, words)
    }
}

// ---- the object

#[tactic(auto, using(check_json::proofs::Values::accepted_object))]
fn write_object(w: &mut Writer, uses: &[Uses], accepted: &Accepted<'_>) -> Result<(), AllocError>
    ensures { OnOk result (IsAcceptedObject accepted.now.strict w.old w.new) }
{
    open_object(w)?;
    put_buffers(w, accepted)?;
    put_entry_names(w, accepted)?;
    put_entries(w, accepted)?;
    put_globals(w, uses, accepted)?;
    put_strict(w, accepted.strict)?;
    put_verdict(w)?;
    put_without(w, accepted.without)?;
    close_object(w)?;
    Ok(())
}

// The text of what was written.
fn text_in(w: Writer) -> Result<String, AllocError>
    ensures is { IfOk result (λ s. string_bytes s ≡ w.before ++ print w.tokens) }
    ensures reads { IfOk result (λ s. tokens (print w.tokens) ≡ w.tokens) }
{
    match String::from_utf8(w.into_inner()) {
        Ok(text) => Ok(text),
        Err(_) => Err(AllocError),
    }
}

/// One JSON object with all that is told of a valid module, in one line without a line feed. The keys of objects are in the order
/// of their bytes. The error is out of memory.
#[tactic(auto, using(check_json::proofs::Values::accepted_text))]
pub fn accepted_json(alloc: Global, accepted: &Accepted<'_>) -> Result<String, AllocError>
    ensures { IfOk result (λ text. IsAcceptedText accepted.now.strict (string_bytes text)) }
{
    let uses = uses_in(alloc, accepted.names, accepted.rows)?;
    let mut w = Writer::new(Vec::new(alloc));
    write_object(&mut w, &uses, accepted)?;
    let text = text_in(w)?;
    Ok(text)
}
