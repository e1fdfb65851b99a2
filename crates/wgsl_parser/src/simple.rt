// Statements without blocks.

use wgsl_text::WgslError;
use wgsl_tokens::TokenKind;
use wgsl_tree::{Mode, Parser, StepKind, assigned_operator};
use wgsl_words::Keyword;

// A `let` or `const` after its keyword.
fn constant(parser: &mut Parser, keyword: Keyword) {
    let token = parser.token();
    parser.new_name();
    let typed = parser.skip(TokenKind::Colon);
    if typed {
        parser.expression(Mode::Type);
    }
    parser.expect(TokenKind::Equal, "expected operation (`=`)");
    parser.expression(Mode::Value);
    match keyword {
        Keyword::Let => parser.push(StepKind::Let(typed), token),
        _ => parser.push(StepKind::Const(typed), token),
    }
}

// A `var` after its keyword.
fn variable(parser: &mut Parser) {
    let mut templates: u16 = 0;
    if parser.skip(TokenKind::TemplateOpen) {
        let extent = parser.extent();
        parser.expression(Mode::Value);
        templates = 1;
        if parser.skip(TokenKind::Comma) && parser.kind() != TokenKind::TemplateClose {
            parser.failed.fail(WgslError::malformed("unused expressions for template", extent));
        }
        parser.expect(TokenKind::TemplateClose, "expected `>`");
    }
    let token = parser.token();
    let extent = parser.extent();
    parser.new_name();
    let typed = parser.skip(TokenKind::Colon);
    if typed {
        parser.expression(Mode::Type);
    }
    let init = parser.skip(TokenKind::Equal);
    if init {
        parser.expression(Mode::Value);
    }
    if !typed && !init && parser.kind() == TokenKind::Semicolon {
        let error = WgslError::of_name(
            "declaration of ",
            extent,
            " needs a type specifier or initializer",
        );
        parser.failed.fail(error);
    }
    let kind = StepKind::Var {
        templates,
        typed,
        init,
    };
    parser.push(kind, token);
}

// Reads a declaration, if there is one.
fn declaration(parser: &mut Parser) -> bool {
    let keyword = parser.keyword();
    match keyword {
        Keyword::Let | Keyword::Const => {
            parser.advance();
            constant(parser, keyword);
        }
        Keyword::Var => {
            parser.advance();
            variable(parser);
        }
        _ => return false,
    }
    true
}

// The number of arguments of the last step, if it is a call.
fn last_call(parser: &Parser) -> Option<u32> {
    match parser.steps.last() {
        Some(step) => match step.kind {
            StepKind::Call(count) => Some(count),
            _ => None,
        },
        None => None,
    }
}

// An assignment or a call.
fn effect(parser: &mut Parser) {
    let token = parser.token();
    if parser.skip_keyword(Keyword::Underscore) {
        parser.expect(TokenKind::Equal, "expected operation (`=`)");
        parser.expression(Mode::Value);
        parser.push(StepKind::Phony, token);
        return;
    }
    parser.expression(Mode::Place);
    if parser.has_failed() {
        return;
    }
    if let Some(count) = last_call(parser) {
        let _ = parser.steps.pop();
        let close = parser.token().saturating_sub(1);
        parser.push(StepKind::CallStatement(count), close);
        return;
    }
    store(parser);
}

// The operator after a left-hand side.
fn store(parser: &mut Parser) {
    let token = parser.token();
    let kind = parser.kind();
    let operator = assigned_operator(kind);
    match kind {
        TokenKind::PlusPlus => {
            parser.advance();
            parser.push(StepKind::Increase, token);
        }
        TokenKind::MinusMinus => {
            parser.advance();
            parser.push(StepKind::Decrease, token);
        }
        TokenKind::Equal => {
            parser.advance();
            parser.expression(Mode::Value);
            parser.push(StepKind::Assign, token);
        }
        _ => match operator {
            Some(operator) => {
                parser.advance();
                parser.push(StepKind::Target, token);
                parser.expression(Mode::Value);
                parser.push(StepKind::Compound(operator), token);
            }
            None => parser.refuse("expected assignment or increment/decrement"),
        },
    }
}

// An assignment, a call or, if `declares`, a declaration, without its semicolon.
pub(crate) fn simple(parser: &mut Parser, declares: bool) {
    if declares && declaration(parser) {
        return;
    }
    effect(parser);
}

// Reads a keyword statement without a block, with its semicolon. Returns whether there is one.
pub(crate) fn jump(parser: &mut Parser, keyword: Keyword) -> bool {
    let token = parser.token();
    match keyword {
        Keyword::Continue => {
            parser.advance();
            parser.push(StepKind::Continue, token);
        }
        Keyword::Discard => {
            parser.advance();
            parser.push(StepKind::Discard, token);
        }
        Keyword::Return => {
            parser.advance();
            let has_value = parser.kind() != TokenKind::Semicolon;
            if has_value {
                parser.expression(Mode::Value);
            }
            parser.push(StepKind::Return(has_value), token);
        }
        Keyword::ConstAssert => {
            parser.advance();
            parser.expression(Mode::Value);
            parser.push(StepKind::ConstAssert, token);
        }
        _ => return false,
    }
    parser.expect(TokenKind::Semicolon, "expected `;`");
    true
}
