// The error of a function: the words and the numbers of its `Debug` form, in order, without field names and quoted item names.
use std::alloc::{AllocError, Global};
use test_support::call::{completed, freeing};
use typing_errors::FunctionError;

fn is_part_of_word(letter: char) -> bool {
    letter.is_ascii_alphanumeric() || letter == '_' || letter == '-'
}

// A part of a string, with a space for each punctuation character.
fn push_spaced(spaced: &mut String, piece: &str) -> Result<(), AllocError> {
    for letter in piece.chars() {
        spaced.push(if is_part_of_word(letter) { letter } else { ' ' })?;
    }
    Ok(())
}

// The parts of a string outside quotes.
fn push_pieces(spaced: &mut String, text: &str) -> Result<(), AllocError> {
    for (place, piece) in text.split('"').enumerate() {
        if place % 2 == 0 {
            push_spaced(spaced, piece)?;
        }
    }
    Ok(())
}

// A string without its quoted parts, and with a space for each punctuation character.
fn spaced_out(alloc: Global, text: &str) -> Result<String, AllocError> {
    let mut spaced = String::new(alloc);
    completed(push_pieces(&mut spaced, text), spaced)
}

// Whether a word is that of a kind or a set, or a number, and not a field name.
fn is_reported(word: &str) -> bool {
    match word.chars().next() {
        Some(first) => !first.is_ascii_lowercase(),
        None => false,
    }
}

// Appends the printed words of a string to another.
fn push_words(told: &mut String, spaced: &str) -> Result<(), AllocError> {
    for part in spaced.split(' ') {
        if is_reported(part) {
            told.push_str(" ")?;
            told.push_str(part)?;
        }
    }
    Ok(())
}

// The same for a string with punctuation and quotes.
fn push_text(alloc: Global, told: &mut String, text: &str) -> Result<(), AllocError> {
    let spaced = spaced_out(alloc, text)?;
    freeing(push_words(told, &spaced), spaced)
}

// The same for the `Debug` form of an error.
fn push_error(alloc: Global, told: &mut String, error: &FunctionError) -> Result<(), AllocError> {
    let text = format!(in alloc; "{error:?}")?;
    freeing(push_text(alloc, told, &text), text)
}

/// The first invalid function of these, and its error.
pub fn refusal_reported(
    alloc: Global,
    word: &str,
    index: usize,
    error: &FunctionError,
) -> Result<String, AllocError> {
    let mut told = format!(in alloc; "{word} {index}")?;
    completed(push_error(alloc, &mut told, error), told)
}
