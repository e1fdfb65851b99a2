// Statements, with an explicit stack of open blocks.

use crate::blocks::{Around, Blocks, MAX_BRACES, end_at, ends_of};
use crate::simple::{jump, simple};
use wgsl_text::WgslError;
use wgsl_tokens::TokenKind;
use wgsl_tree::{Mode, Parser, StepKind};
use wgsl_words::Keyword;

// The body of a function, with its braces.
pub(crate) fn body(parser: &mut Parser) {
    let mut blocks = Blocks {
        open: Vec::new(parser.alloc),
        kept: Vec::new(parser.alloc),
    };
    blocks.enter(parser, Around::Function);
    for _ in parser.place..parser.tokens.list.len().saturating_add(1) {
        if parser.has_failed() || blocks.open.is_empty() {
            break;
        }
        blocks.statement(parser);
    }
}

impl Blocks {
    // Enters a block at its brace.
    fn enter(&mut self, parser: &mut Parser, around: Around) {
        let extent = parser.extent();
        parser.expect(TokenKind::BraceOpen, "expected `{`");
        if self.open.len() >= MAX_BRACES {
            let error = WgslError::unsupported("braces nested more than 127 deep", extent);
            parser.failed.fail(error);
        }
        parser.failed.push(&mut self.open, around);
    }

    // The innermost block.
    fn innermost(&self) -> Around {
        self.open.last().copied().unwrap_or(Around::Function)
    }

    // Reads a statement, or the end of a block.
    fn statement(&mut self, parser: &mut Parser) {
        let around = self.innermost();
        if parser.kind() == TokenKind::BraceClose {
            self.leave(parser, around);
            return;
        }
        if around == Around::Switch {
            self.case(parser);
            return;
        }
        match parser.kind() {
            TokenKind::Semicolon => parser.advance(),
            TokenKind::BraceOpen => {
                parser.push(StepKind::Block, parser.token());
                self.enter(parser, Around::Plain);
            }
            TokenKind::At => filtered(parser),
            TokenKind::Word => self.word(parser, around),
            TokenKind::ParenOpen | TokenKind::Star | TokenKind::And => {
                simple(parser, false);
                parser.expect(TokenKind::Semicolon, "expected `;`");
            }
            _ => parser.refuse("expected statement"),
        }
    }

    // Reads a statement that begins with a word.
    fn word(&mut self, parser: &mut Parser, around: Around) {
        let keyword = parser.keyword();
        let token = parser.token();
        match keyword {
            Keyword::If => {
                parser.advance();
                parser.expression(Mode::Value);
                self.condition(parser, 1, token);
            }
            Keyword::Switch => {
                parser.advance();
                parser.expression(Mode::Value);
                parser.push(StepKind::Switch, token);
                self.enter(parser, Around::Switch);
            }
            Keyword::Loop => {
                parser.push(StepKind::Loop, parser.token());
                parser.advance();
                self.enter(parser, Around::Loop);
            }
            Keyword::While => self.while_loop(parser),
            Keyword::For => self.for_loop(parser),
            Keyword::Continuing if around == Around::Loop => self.continuing(parser),
            Keyword::Break => self.leave_loop(parser, around),
            _ => {
                if !jump(parser, keyword) {
                    simple(parser, true);
                    parser.expect(TokenKind::Semicolon, "expected `;`");
                }
            }
        }
    }

    // Enters the body of an `if` at this token after its condition.
    fn condition(&mut self, parser: &mut Parser, count: u32, token: u32) {
        parser.push(StepKind::If, token);
        self.enter(parser, Around::If(count));
    }

    // Reads the head of a `while` loop.
    fn while_loop(&mut self, parser: &mut Parser) {
        let token = parser.token();
        parser.push(StepKind::While, token);
        parser.advance();
        parser.expression(Mode::Value);
        parser.push(StepKind::WhileTest, token);
        self.enter(parser, Around::While);
    }

    // Reads the head of a `for` loop.
    fn for_loop(&mut self, parser: &mut Parser) {
        parser.push(StepKind::For, parser.token());
        parser.advance();
        parser.expect(TokenKind::ParenOpen, "expected `(`");
        if parser.kind() != TokenKind::Semicolon {
            simple(parser, true);
        }
        parser.expect(TokenKind::Semicolon, "expected `;`");
        parser.push(StepKind::ForLoop, parser.token());
        let token = parser.token();
        let has_test = parser.kind() != TokenKind::Semicolon;
        if has_test {
            parser.expression(Mode::Value);
        }
        parser.push(StepKind::ForTest(has_test), token);
        parser.expect(TokenKind::Semicolon, "expected `;`");
        let kept = u32::try_from(self.kept.len()).unwrap_or(u32::MAX);
        let start = parser.steps.len();
        if parser.kind() != TokenKind::ParenClose {
            simple(parser, false);
        }
        self.keep(parser, start);
        parser.expect(TokenKind::ParenClose, "expected `)`");
        self.enter(parser, Around::For(kept));
    }

    // Moves the steps from an index on to the kept ones.
    fn keep(&mut self, parser: &mut Parser, start: usize) {
        for place in start..parser.steps.len() {
            if let Some(step) = parser.steps.get(place) {
                parser.failed.push(&mut self.kept, *step);
            }
        }
        parser.steps.truncate(start);
    }

    // Appends the kept steps from an index on.
    fn restore(&mut self, parser: &mut Parser, start: usize) {
        for place in start..self.kept.len() {
            if let Some(step) = self.kept.get(place) {
                parser.failed.push(&mut parser.steps, *step);
            }
        }
        self.kept.truncate(start);
    }

    // Reads the head of a continuing block.
    fn continuing(&mut self, parser: &mut Parser) {
        parser.push(StepKind::Continuing, parser.token());
        parser.advance();
        self.enter(parser, Around::Continuing);
    }

    // Reads `break`, or `break if` in a continuing block.
    fn leave_loop(&mut self, parser: &mut Parser, around: Around) {
        let token = parser.token();
        let extent = parser.extent();
        parser.advance();
        let has_condition = parser.keyword() == Keyword::If;
        match (around, has_condition) {
            (Around::Continuing, true) => {
                parser.advance();
                parser.expression(Mode::Value);
                parser.push(StepKind::BreakIf, token);
                parser.expect(TokenKind::Semicolon, "expected `;`");
                if parser.kind() != TokenKind::BraceClose {
                    parser.refuse("expected `}`");
                }
            }
            (Around::Continuing, false) => parser.refuse("expected if"),
            (_, true) => {
                let whole = extent.until(parser.extent());
                parser.failed.fail(WgslError::malformed(
                    "A break if is only allowed in a continuing block",
                    whole,
                ));
            }
            (_, false) => {
                parser.push(StepKind::Break, token);
                parser.expect(TokenKind::Semicolon, "expected `;`");
            }
        }
    }

    // Reads the head of a case.
    fn case(&mut self, parser: &mut Parser) {
        let token = parser.token();
        if parser.skip_keyword(Keyword::Default) {
            parser.push(StepKind::CaseDefault, token);
        } else if parser.skip_keyword(Keyword::Case) {
            case_values(parser);
        } else {
            parser.refuse("expected switch item (`case`, `default`)");
            return;
        }
        parser.skip(TokenKind::Colon);
        parser.push(StepKind::CaseBody, parser.token());
        self.enter(parser, Around::Case);
    }

    // Leaves the innermost block.
    fn leave(&mut self, parser: &mut Parser, around: Around) {
        let token = parser.token();
        parser.advance();
        let _ = self.open.pop();
        match around {
            Around::Function => return,
            Around::If(count) if parser.keyword() == Keyword::Else => {
                self.otherwise(parser, count);
                return;
            }
            Around::Continuing => {
                // the loop ends with its continuing block
                parser.expect(TokenKind::BraceClose, "expected `}`");
                let _ = self.open.pop();
            }
            Around::For(kept) => {
                parser.push(StepKind::ForUpdate, token);
                self.restore(parser, kept as usize);
            }
            _ => {}
        }
        for _ in 0..ends_of(around) {
            let end = end_at(token);
            parser.push(end.kind, end.token);
        }
    }

    // Enters `else`.
    fn otherwise(&mut self, parser: &mut Parser, count: u32) {
        parser.push(StepKind::Else, parser.token());
        parser.advance();
        let token = parser.token();
        if parser.skip_keyword(Keyword::If) {
            parser.expression(Mode::Value);
            self.condition(parser, count.saturating_add(1), token);
        } else {
            self.enter(parser, Around::Else(count));
        }
    }
}

// Reads the selectors of a case.
fn case_values(parser: &mut Parser) {
    for count in 0..parser.tokens.list.len() {
        if parser.has_failed() {
            return;
        }
        let token = parser.token();
        let kind = parser.kind();
        if count > 0 && (kind == TokenKind::Colon || kind == TokenKind::BraceOpen) {
            break;
        }
        if parser.skip_keyword(Keyword::Default) {
            parser.push(StepKind::CaseDefault, token);
        } else {
            parser.expression(Mode::Value);
            parser.push(StepKind::CaseValue, token);
        }
        if !parser.skip(TokenKind::Comma) {
            break;
        }
    }
}

// Reports attributes before a statement.
fn filtered(parser: &mut Parser) {
    let extent = parser.extent();
    parser.advance();
    let name = parser.extent();
    if parser.tokens.part(name) == b"diagnostic".as_slice() {
        parser.failed.fail(WgslError::malformed(
            "`@diagnostic(…)` attribute(s) not yet implemented",
            extent,
        ));
    } else {
        parser.refuse("expected the `diagnostic` attribute identifier");
    }
}
