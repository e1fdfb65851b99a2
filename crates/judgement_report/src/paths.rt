//! Paths of leaves, step by step.

ghost use Rattle.std.specs.Prelude.{◌≡◌, ◌++◌, ◌∷◌, [], IfOk, OnOk, option_map, string_bytes};
ghost use Rattle.judgement_report.specs.Lines.{repeat_words};
ghost use Rattle.judgement_report.specs.Paths.{are_word_bytes, dot_after, is_word, is_word_byte, member_word, range_word, stride_word, to_elements, to_member};
ghost use Rattle.judgement_report.specs.Runs.{to_each};

use judgement_rows::Repeat;
use std::alloc::{AllocError, Global};

// Whether a byte is an ASCII letter, a digit, an underscore or part of a non-ASCII character.
const fn is_word_byte(byte: u8) -> bool
    ensures { result ≡ is_word_byte byte }
{
    byte.is_ascii_alphanumeric() || byte == b'_' || !byte.is_ascii()
}

// Whether all bytes are.
fn are_word_bytes(bytes: &[u8]) -> bool
    ensures { result ≡ are_word_bytes bytes.now }
{
    for byte in bytes {
        if !is_word_byte(*byte) {
            return false;
        }
    }
    true
}

// Whether a name is written unchanged: only if it can't be confused with an index, with several steps or with several lines.
fn is_word(name: &str) -> bool
    ensures { result ≡ is_word name.now }
{
    let bytes = name.as_bytes();
    match bytes.first() {
        Some(first) => !first.is_ascii_digit() && are_word_bytes(bytes),
        None => false,
    }
}

// Writes a dot after the preceding path, if that is not empty.
fn dot_after(before: &str) -> &'static str
    ensures { result.now ≡ dot_after before.now }
{
    if before.is_empty() { "" } else { "." }
}

// Writes a member's step: its name, if that is a plain word, or else its index.
fn write_word(path: &mut String, name: &Option<String>, number: usize) -> Result<(), AllocError>
    ensures { OnOk result (string_bytes path.new ≡ string_bytes path.old ++ member_word (option_map string_bytes name.now) number) }
{
    match name {
        Some(name) => {
            if is_word(name) {
                path.push_str(name)
            } else {
                write!(path, "{number}")
            }
        }
        None => write!(path, "{number}"),
    }
}

/// A path extended by a step to the member with this name, if it has one, and this index.
pub(crate) fn to_member(
    alloc: Global,
    before: &str,
    name: &Option<String>,
    number: usize,
) -> Result<String, AllocError>
    ensures { IfOk result (λ path. string_bytes path ≡ to_member before.now (option_map string_bytes name.now) number) }
{
    let mut path = String::from_str(alloc, before)?;
    path.push_str(dot_after(before))?;
    write_word(&mut path, name, number)?;
    Ok(path)
}

// Writes the index range of `n` elements from 0 on.
fn write_range(path: &mut String, count: u32) -> Result<(), AllocError>
    ensures { OnOk result (string_bytes path.new ≡ string_bytes path.old ++ range_word count) }
{
    if count == 1 {
        path.push_str("0")
    } else {
        write!(path, "0..{count}")
    }
}

/// A path extended by a step to each of `n` elements.
pub(crate) fn to_elements(alloc: Global, before: &str, count: u32) -> Result<String, AllocError>
    ensures { IfOk result (λ path. string_bytes path ≡ to_elements before.now count) }
{
    let mut path = String::from_str(alloc, before)?;
    path.push_str("[")?;
    write_range(&mut path, count)?;
    path.push_str("]")?;
    Ok(path)
}

/// These arrays.
pub(crate) fn copied(alloc: Global, repeats: &[Repeat]) -> Result<Vec<Repeat>, AllocError>
    ensures { IfOk result (λ all. all.items ≡ repeats.now) }
{
    let mut all = Vec::new(alloc);
    all.extend_from_slice(repeats)?;
    Ok(all)
}

// Appends an array.
fn append(repeats: &mut Vec<Repeat>, repeat: Repeat) -> Result<(), AllocError>
    ensures { OnOk result (repeats.new.items ≡ repeats.old.items ++ repeat ∷ []) }
{
    repeats.push(repeat)?;
    Ok(())
}

/// The arrays around a leaf with a further one: nothing is appended if it has one element.
pub(crate) fn with_repeat(
    alloc: Global,
    before: &[Repeat],
    count: u32,
    stride: u32,
) -> Result<Vec<Repeat>, AllocError>
    ensures { IfOk result (λ repeats. repeat_words repeats.items ≡ repeat_words before.now ++ stride_word (to_each count stride)) }
{
    if count == 1 {
        return copied(alloc, before);
    }
    let mut repeats = copied(alloc, before)?;
    append(&mut repeats, Repeat { count, stride })?;
    Ok(repeats)
}
