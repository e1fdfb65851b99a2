// The parser's position and output.

use crate::expressions::Open;
use crate::steps::{Step, StepKind};
use ir_kinds::Literal;
use std::alloc::Global;
use wgsl_text::{Extent, Failure, WgslError};
use wgsl_tokens::{Look, Mark, TokenKind, Tokens};
use wgsl_words::{Keyword, keyword_of};

/// The parser's state. After the first error its output is discarded.
pub struct Parser {
    /// The allocator.
    pub alloc: Global,
    /// The tokens.
    pub tokens: Tokens,
    /// The keyword of each identifier number.
    pub keywords: Vec<Keyword>,
    /// The index of the next token.
    pub place: usize,
    /// The steps so far.
    pub steps: Vec<Step>,
    /// The literals so far.
    pub literals: Vec<Literal>,
    /// The first error.
    pub failed: Failure,
    // the open operators and brackets around the next operand, innermost last
    pub(crate) open: Vec<Open>,
    // the number of open brackets
    pub(crate) brackets: u32,
}

// Written out, so that dropping it is one call of this crate.
impl Drop for Parser {
    fn drop(self) {
        let Parser {
            alloc: _,
            tokens: _tokens,
            keywords: _keywords,
            place: _,
            steps: _steps,
            literals: _literals,
            failed: _,
            open: _open,
            brackets: _,
        } = self;
    }
}

impl Parser {
    /// Starts at the first token.
    pub fn new(alloc: Global, tokens: Tokens) -> Parser {
        let mut failed = Failure::NONE;
        let mut keywords = Vec::new(alloc);
        for number in 0..tokens.names.len() {
            let keyword = keyword_of(tokens.word(u32::try_from(number).unwrap_or(u32::MAX)));
            failed.push(&mut keywords, keyword);
        }
        Parser {
            alloc,
            tokens,
            keywords,
            place: 0,
            steps: Vec::new(alloc),
            literals: Vec::new(alloc),
            failed,
            open: Vec::new(alloc),
            brackets: 0,
        }
    }

    /// The tokens, steps and literals.
    pub fn into_parts(self) -> (Tokens, Vec<Step>, Vec<Literal>) {
        let Parser {
            alloc: _,
            tokens,
            keywords: _keywords,
            place: _,
            steps,
            literals,
            failed: _,
            open: _open,
            brackets: _,
        } = self;
        (tokens, steps, literals)
    }

    /// Whether there was an error.
    pub fn has_failed(&self) -> bool {
        self.failed.is_some()
    }

    /// The next token.
    pub fn look(&self) -> Look {
        self.tokens.look(self.place)
    }

    /// The kind of the next token.
    pub fn kind(&self) -> TokenKind {
        self.look().kind
    }

    /// The index of the next token, as steps store it.
    pub fn token(&self) -> u32 {
        u32::try_from(self.place).unwrap_or(u32::MAX)
    }

    /// The number of steps.
    pub fn count(&self) -> u32 {
        u32::try_from(self.steps.len()).unwrap_or(u32::MAX)
    }

    /// The extent of the next token.
    pub fn extent(&self) -> Extent {
        let count = self.look().count.max(1);
        let last = self.place.saturating_add(count).saturating_sub(1);
        self.tokens
            .at(self.place)
            .extent()
            .until(self.tokens.at(last).extent())
    }

    /// Skips the next token.
    pub fn advance(&mut self) {
        let count = self.look().count;
        self.place = self.place.saturating_add(count.max(1));
    }

    /// Skips the next token if it is of this kind. Returns whether it is.
    pub fn skip(&mut self, kind: TokenKind) -> bool {
        let is_next = self.kind() == kind;
        if is_next {
            self.advance();
        }
        is_next
    }

    /// Skips the next token, which must be of this kind, or reports the error.
    pub fn expect(&mut self, kind: TokenKind, wanted: &'static str) {
        if !self.skip(kind) {
            self.refuse(wanted);
        }
    }

    /// Reports an unexpected token.
    pub fn refuse(&mut self, wanted: &'static str) {
        let extent = self.extent();
        match self.kind() {
            TokenKind::OpenComment => {
                self.failed
                    .fail(WgslError::malformed("unterminated block comment", extent));
            }
            _ => self.failed.fail(WgslError::expected(wanted, extent)),
        }
    }

    /// The identifier number of the next token, if it is a word.
    pub fn name(&self) -> Option<u32> {
        match self.tokens.mark(self.place) {
            Mark::Name(number) => Some(number),
            Mark::None | Mark::Open | Mark::Close => None,
        }
    }

    /// The keyword of the next token, if any.
    pub fn keyword(&self) -> Keyword {
        match self.name() {
            Some(number) => self
                .keywords
                .get(number as usize)
                .copied()
                .unwrap_or(Keyword::None),
            None => Keyword::None,
        }
    }

    /// Skips the next token if it is this keyword. Returns whether it is.
    pub fn skip_keyword(&mut self, keyword: Keyword) -> bool {
        let is_next = self.keyword() == keyword;
        if is_next {
            self.advance();
        }
        is_next
    }

    /// Reads the identifier of a declaration.
    pub fn new_name(&mut self) -> u32 {
        let extent = self.extent();
        let Some(number) = self.name() else {
            self.refuse("expected identifier");
            return 0;
        };
        match self.keyword() {
            Keyword::None => {}
            Keyword::Underscore => {
                self.failed
                    .fail(WgslError::malformed("Identifier can't be `_`", extent));
            }
            Keyword::ReservedPrefix => {
                let error = WgslError::of_name(
                    "Identifier starts with a reserved prefix: ",
                    extent,
                    "",
                );
                self.failed.fail(error);
            }
            _ => {
                let error = WgslError::of_name("name ", extent, " is a reserved keyword");
                self.failed.fail(error);
            }
        }
        self.advance();
        number
    }

    /// Appends a step at a token.
    pub fn push(&mut self, kind: StepKind, token: u32) {
        self.failed.push(&mut self.steps, Step { kind, token });
    }
}
