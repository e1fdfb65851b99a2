// Directives, before all declarations.

use crate::items::Reading;
use ir_flags::Capabilities;
use wgsl_text::{Extent, WgslError};
use wgsl_tokens::TokenKind;
use wgsl_tree::{Attribute, Parser, StepKind};
use wgsl_words::{AttributeWord, Keyword, enable_of, is_language_feature, severity_of};

// All directives.
pub(crate) fn directives(reading: &mut Reading) {
    for _ in 0..reading.parser.tokens.list.len() {
        if reading.parser.has_failed() {
            break;
        }
        match reading.parser.keyword() {
            Keyword::Enable => names(reading, true),
            Keyword::Requires => names(reading, false),
            Keyword::Diagnostic => diagnostic(reading),
            _ => break,
        }
    }
}

// A diagnostic directive.
fn diagnostic(reading: &mut Reading) {
    let token = reading.parser.token();
    let start = reading.parser.count();
    reading.parser.advance();
    reading.parser.expect(TokenKind::ParenOpen, "expected `(`");
    let count = filter(&mut reading.parser);
    reading.parser.expect(TokenKind::Semicolon, "expected `;`");
    let directive = Attribute {
        word: AttributeWord::Diagnostic,
        token,
        count,
        steps: reading.steps_from(start),
    };
    reading
        .parser
        .failed
        .push(&mut reading.attributes, directive);
}

// Reads the names that a directive lists.
fn names(reading: &mut Reading, extensions: bool) {
    reading.parser.advance();
    for count in 0..reading.parser.tokens.list.len() {
        if reading.parser.has_failed() {
            return;
        }
        if count > 0 && reading.parser.kind() == TokenKind::Semicolon {
            break;
        }
        if reading.parser.name().is_none() {
            reading.parser.refuse("expected identifier");
            return;
        }
        let extent = reading.parser.extent();
        if extensions {
            enable(reading, extent)
        } else {
            require(&mut reading.parser, extent)
        }
        reading.parser.advance();
        if !reading.parser.skip(TokenKind::Comma) {
            break;
        }
    }
    reading.parser.expect(TokenKind::Semicolon, "expected `;`");
}

// An enable extension.
fn enable(reading: &mut Reading, extent: Extent) {
    match enable_of(reading.parser.tokens.part(extent)) {
        Some(more) => reading.enabled = Capabilities(reading.enabled.0 | more.0),
        None => {
            let error = WgslError::of_name("unknown enable-extension ", extent, "");
            reading.parser.failed.fail(error);
        }
    }
}

// A language extension.
fn require(parser: &mut Parser, extent: Extent) {
    if !is_language_feature(parser.tokens.part(extent)) {
        let error = WgslError::of_name("unknown language extension ", extent, "");
        parser.failed.fail(error);
    }
}

// A diagnostic filter after its opening parenthesis: severity, and a rule of one or two names. Returns the number of names.
pub(crate) fn filter(parser: &mut Parser) -> u32 {
    let extent = parser.extent();
    let token = parser.token();
    let Some(severity) = parser.name() else {
        parser.refuse("expected identifier");
        return 0;
    };
    if severity_of(parser.tokens.part(extent)).is_none() {
        parser.failed.fail(WgslError::malformed("invalid `diagnostic(…)` severity", extent));
        return 0;
    }
    parser.push(StepKind::Name(severity), token);
    parser.advance();
    parser.expect(TokenKind::Comma, "expected `,`");
    let mut count: u32 = 1;
    for _ in 0..2 {
        let token = parser.token();
        let Some(rule) = parser.name() else {
            parser.refuse("expected identifier");
            return count;
        };
        parser.push(StepKind::Name(rule), token);
        parser.advance();
        count = count.saturating_add(1);
        if !parser.skip(TokenKind::Dot) {
            break;
        }
    }
    parser.skip(TokenKind::Comma);
    parser.expect(TokenKind::ParenClose, "expected `)`");
    count
}
