// Tokens with their identifiers and template list marks.
ghost use Rattle.std.specs.Prelude.{◌≡◌, ◌≤◌, length, IfOk};
ghost use Rattle.wgsl_tokens.specs.Cut.{AreTokens, joined};

use crate::lexer::cut_tokens;
use crate::numbers::number_at;
use crate::templates::mark_templates;
use crate::token::{Token, TokenKind};
use ir_kinds::Literal;
use ir_sets::keyed::KeyedState;
use std::alloc::Global;
use std::collections::HashMap;
use wgsl_text::{Extent, Failure, WgslError};

/// The mark of a token.
#[derive(Clone, Copy, PartialEq, Eq)]
pub enum Mark {
    /// No mark.
    None,
    /// It opens a template list.
    Open,
    /// It closes a template list.
    Close,
    /// It is the word with this number. Equal words have equal numbers.
    Name(u32),
}

/// A token joined from one or more adjacent tokens.
#[derive(Clone, Copy)]
pub struct Look {
    /// Its kind.
    pub kind: TokenKind,
    /// The number of tokens.
    pub count: usize,
}

impl Look {
    // A token of this kind from `count` tokens.
    fn of(kind: TokenKind, count: usize) -> Look {
        Look { kind, count }
    }
}

/// The tokens of a text with their marks, and the distinct words by their first occurrence.
#[derive(Drop)]
pub struct Tokens {
    /// The text.
    pub text: Vec<u8>,
    /// The tokens.
    pub list: Vec<Token>,
    /// The mark of each.
    pub marks: Vec<Mark>,
    /// The first occurrence of each word, by number.
    pub names: Vec<Extent>,
    /// The length of the text, in bytes.
    pub length: u32,
}

impl Tokens {
    /// A part of the text.
    pub fn part(&self, extent: Extent) -> &[u8] {
        self.text
            .get(extent.start as usize..extent.end as usize)
            .unwrap_or(&[])
    }

    /// The word with this number.
    pub fn word(&self, number: u32) -> &[u8] {
        match self.names.get(number as usize) {
            Some(extent) => self.part(*extent),
            None => &[],
        }
    }

    /// The value of the literal at an index. The error is that it is invalid, or not representable in its type.
    pub fn number(&self, place: usize) -> Result<Literal, WgslError> {
        number_at(&self.text, self.at(place).extent())
    }

    /// The token at an index, or the end of the text.
    pub fn at(&self, place: usize) -> Token {
        match self.list.get(place) {
            Some(token) => *token,
            None => Token {
                kind: TokenKind::End,
                start: self.length,
                end: self.length,
            },
        }
    }

    /// The joined token at an index, by its mark and the adjacent tokens.
    pub fn look(&self, place: usize) -> Look {
        let kind = self.at(place).kind;
        match (kind, self.mark(place)) {
            (TokenKind::Less, Mark::Open) => Look::of(TokenKind::TemplateOpen, 1),
            (TokenKind::Greater, Mark::Close) => Look::of(TokenKind::TemplateClose, 1),
            (TokenKind::Greater, _) => self.look_greater(place),
            (TokenKind::Equal, _) if self.follows(place, TokenKind::Equal) => {
                Look::of(TokenKind::EqualEqual, 2)
            }
            _ => Look::of(kind, 1),
        }
    }

    // The joined token of a `>` that closes no template list.
    fn look_greater(&self, place: usize) -> Look {
        let next = place.saturating_add(1);
        if self.follows(place, TokenKind::Equal) {
            return Look::of(TokenKind::GreaterEqual, 2);
        }
        if !self.follows(place, TokenKind::Greater) || self.mark(next) == Mark::Close {
            return Look::of(TokenKind::Greater, 1);
        }
        if self.follows(next, TokenKind::Equal) {
            return Look::of(TokenKind::ShiftRightEqual, 3);
        }
        Look::of(TokenKind::ShiftRight, 2)
    }

    // Whether a token of this kind is adjacent.
    fn follows(&self, place: usize, kind: TokenKind) -> bool {
        let next = self.at(place.saturating_add(1));
        next.kind == kind && next.start == self.at(place).end
    }

    /// The mark of the token at an index.
    pub fn mark(&self, place: usize) -> Mark {
        self.marks.get(place).copied().unwrap_or(Mark::None)
    }
}

// Numbers the words, and marks their tokens.
fn number_words(
    alloc: Global,
    text: &[u8],
    tokens: &[Token],
    marks: &mut Vec<Mark>,
    failed: &mut Failure,
) -> Vec<Extent> {
    let mut names = Vec::new(alloc);
    let mut known: HashMap<&[u8], u32, KeyedState> = HashMap::with_hasher(
        alloc,
        KeyedState::of_bytes(text),
    );
    for token in tokens {
        if token.kind != TokenKind::Word {
            failed.push(marks, Mark::None);
            continue;
        }
        let word = text
            .get(token.start as usize..token.end as usize)
            .unwrap_or(&[]);
        let number = match known.get(word) {
            Some(number) => *number,
            None => {
                let number = u32::try_from(names.len()).unwrap_or(u32::MAX);
                failed.push(&mut names, token.extent());
                if known.insert(word, number).is_err() {
                    failed.fail_memory();
                }
                number
            }
        };
        failed.push(marks, Mark::Name(number));
    }
    names
}

/// The tokens of a text: words are numbered, and the delimiters of template lists marked.
/// The error is out of memory.
pub fn tokenize(alloc: Global, text: &[u8]) -> Result<Tokens, WgslError>
    requires { length text.now ≤ 16777216 }
    ensures tokens { IfOk result (λ tokens. AreTokens text.now tokens.list.items) }
    ensures joined { IfOk result (λ tokens. joined text.now 0 tokens.list.items ≡ text.now) }
{
    let list = match cut_tokens(alloc, text) {
        Ok(list) => list,
        Err(_) => return Err(WgslError::MEMORY),
    };
    let mut failed = Failure::NONE;
    let copy = match Vec::from_slice(alloc, text) {
        Ok(copy) => copy,
        Err(_) => {
            drop(list);
            return Err(WgslError::MEMORY);
        }
    };
    let mut marks = failed.list(alloc, list.len());
    let names = number_words(alloc, text, &list, &mut marks, &mut failed);
    mark_templates(alloc, &list, &mut marks, &mut failed);
    failed.answer(Tokens {
        text: copy,
        list,
        marks,
        names,
        length: text.len() as u32,
    })
}
