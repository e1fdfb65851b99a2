// Template list discovery (section "Template Lists" of the standard).

use crate::token::{Token, TokenKind};
use crate::words::Mark;
use std::alloc::Global;
use wgsl_text::Failure;

// A `<` that may open a template list.
#[derive(Clone, Copy)]
struct Pending {
    // its index
    place: usize,
    // the nesting of parentheses and brackets
    depth: u32,
}

// The pending candidates, innermost last.
#[derive(Drop)]
struct Search {
    pending: Vec<Pending>,
    depth: u32,
}

impl Search {
    // Drops the candidates at this nesting or deeper.
    fn forget_inner(&mut self) {
        for _ in 0..self.pending.len() {
            match self.pending.last() {
                Some(last) if last.depth >= self.depth => {}
                _ => break,
            }
            let _ = self.pending.pop();
        }
    }

    // Drops all candidates.
    fn forget(&mut self) {
        self.pending.clear();
        self.depth = 0;
    }

    // The candidate that a `>` closes, if any.
    fn close(&mut self) -> Option<usize> {
        match self.pending.last() {
            Some(last) if last.depth == self.depth => {
                let place = last.place;
                let _ = self.pending.pop();
                Some(place)
            }
            _ => None,
        }
    }

    // Updates the state for a token other than `<` after a word and `>`.
    fn pass(&mut self, kind: TokenKind) {
        match kind {
            TokenKind::ParenOpen | TokenKind::BracketOpen => {
                self.depth = self.depth.saturating_add(1);
            }
            TokenKind::ParenClose | TokenKind::BracketClose => {
                self.forget_inner();
                self.depth = self.depth.saturating_sub(1);
            }
            TokenKind::AndAnd | TokenKind::OrOr => self.forget_inner(),
            TokenKind::Equal | TokenKind::Semicolon | TokenKind::BraceOpen | TokenKind::Colon => {
                self.forget();
            }
            _ => {}
        }
    }
}

// Marks a token.
fn set_mark(marks: &mut Vec<Mark>, place: usize, mark: Mark) {
    if let Some(known) = marks.get_mut(place) {
        *known = mark;
    }
}

// Whether the token at an index is `=` right after the one before.
fn is_joined_equal(tokens: &[Token], place: usize) -> bool {
    match (tokens.get(place.saturating_sub(1)), tokens.get(place)) {
        (Some(before), Some(token)) => {
            token.kind == TokenKind::Equal && before.end == token.start
        }
        _ => false,
    }
}

/// Marks the delimiters of template lists.
pub fn mark_templates(
    alloc: Global,
    tokens: &[Token],
    marks: &mut Vec<Mark>,
    failed: &mut Failure,
) {
    let mut search = Search {
        pending: Vec::new(alloc),
        depth: 0,
    };
    let mut before = TokenKind::End;
    let mut place = 0;
    for _ in tokens {
        let kind = match tokens.get(place) {
            Some(token) => token.kind,
            None => break,
        };
        let next = place.saturating_add(1);
        place = next;
        match kind {
            TokenKind::Less if before == TokenKind::Word => {
                let depth = search.depth;
                let opened = Pending {
                    place: next.saturating_sub(1),
                    depth,
                };
                failed.push(&mut search.pending, opened);
            }
            TokenKind::Greater => match search.close() {
                Some(open) => {
                    set_mark(marks, open, Mark::Open);
                    set_mark(marks, next.saturating_sub(1), Mark::Close);
                }
                None if is_joined_equal(tokens, next) => place = next.saturating_add(1),
                None => {}
            },
            TokenKind::Equal if is_joined_equal(tokens, next) => place = next.saturating_add(1),
            _ => search.pass(kind),
        }
        before = kind;
    }
}
