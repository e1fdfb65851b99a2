// The lexer.
ghost use Rattle.std.specs.Prelude.{◌≡◌, ◌≤◌, ◌<◌, length, IfOk};
ghost use Rattle.wgsl_tokens.specs.Cut.{AreTokens, joined};

use crate::blank::after_blank;
use crate::characters::{Character, character_at, name_end, starts_name};
use crate::extents::{number_end, starts_number};
use crate::operators::operator_at;
use crate::token::{Token, TokenKind};
use std::alloc::{AllocError, Global};

// The kind of a token, and its end.
#[derive(Clone, Copy)]
struct Cut {
    kind: TokenKind,
    end: usize,
}

// Whether `>` or `=` may continue an operator that begins with the `>` before it.
fn follows_greater(text: &[u8], at: usize, run: usize) -> bool
    requires { at < length text.now }
{
    at == run && (text[at] == b'>' || text[at] == b'=')
}

// The token that begins here and its end.
fn token_at(text: &[u8], at: usize, run: usize) -> Cut
    requires { at < length text.now }
    ensures more { at < result.end }
    ensures within { result.end ≤ length text.now }
{
    if starts_number(text, at) {
        return Cut {
            kind: TokenKind::Number,
            end: number_end(text, at),
        };
    }
    let (kind, length) = operator_at(text, at, follows_greater(text, at, run));
    if length > 0 {
        return Cut {
            kind,
            end: at + length,
        };
    }
    let character = character_at(text, at);
    word_at(text, character)
}

// The word that begins with this character, or an invalid token.
fn word_at(text: &[u8], character: Character) -> Cut
    requires { character.end ≤ length text.now }
    ensures more { character.end ≤ result.end }
    ensures within { result.end ≤ length text.now }
{
    if starts_name(character) {
        Cut {
            kind: TokenKind::Word,
            end: name_end(text, character.end),
        }
    } else {
        Cut {
            kind: TokenKind::Unknown,
            end: character.end,
        }
    }
}

/// The tokens of a text in order: none is empty, none overlaps the one before, and all lie within the text. With the gaps between
/// them they give the text.
#[tactic(auto, using(crate::proofs::Joined::covers_more, crate::proofs::Joined::covers_all, crate::proofs::Joined::joined_is))]
pub fn cut_tokens(alloc: Global, text: &[u8]) -> Result<Vec<Token>, AllocError>
    requires { length text.now ≤ 16777216 }
    ensures tokens { IfOk result (λ tokens. AreTokens text.now tokens.items) }
    ensures joined { IfOk result (λ tokens. joined text.now 0 tokens.items ≡ text.now) }
{
    let mut tokens = Vec::new(alloc);
    let mut at = 0;
    // the end of the last token, if it is `>` or continues one
    let mut run = text.len();
    while at < text.len() {
        let start = after_blank(text, at);
        if start == text.len() {
            break;
        }
        let cut = token_at(text, start, run);
        tokens.push(Token {
            kind: cut.kind,
            start: start as u32,
            end: cut.end as u32,
        })?;
        at = cut.end;
        run = run_after(cut.kind, cut.end, start, run);
    }
    Ok(tokens)
}

// The end of the current run of `>` and `=`.
fn run_after(kind: TokenKind, end: usize, start: usize, run: usize) -> usize {
    match kind {
        TokenKind::Greater => end,
        TokenKind::Equal if start == run => end,
        _ => usize::MAX,
    }
}
