// Attributes.

use crate::directives::filter;
use crate::items::{Reading, part_from};
use wgsl_text::WgslError;
use wgsl_tokens::TokenKind;
use wgsl_tree::{Attribute, Mode, Part};
use wgsl_words::{AttributeWord, attribute_of};

// Reads all attributes.
pub(crate) fn attributes(reading: &mut Reading) {
    let first = reading.attribute_count();
    for _ in 0..reading.parser.tokens.list.len() {
        if reading.parser.has_failed() || !reading.parser.skip(TokenKind::At) {
            break;
        }
        attribute(reading, first);
    }
}

// Whether an attribute is in a list.
fn has(attributes: &[Attribute], word: AttributeWord) -> bool {
    for attribute in attributes {
        if attribute.word == word {
            return true;
        }
    }
    false
}

// Checks that a declaration has both `@group` and `@binding`, or neither.
pub(crate) fn check_binding(reading: &mut Reading, part: Part) {
    let list = reading
        .attributes
        .get(part.start as usize..part.end as usize)
        .unwrap_or(&[]);
    let (group, binding) = (
        has(list, AttributeWord::Group),
        has(list, AttributeWord::Binding),
    );
    let Some(first) = list.first() else {
        return;
    };
    if group == binding {
        return;
    }
    let text = if group {
        " needs a 'binding' attribute"
    } else {
        " needs a 'group' attribute"
    };
    let start = first.token.saturating_sub(1);
    let end = reading.parser.token().saturating_sub(1);
    let tokens = &reading.parser.tokens;
    let whole = tokens
        .at(start as usize)
        .extent()
        .until(tokens.at(end as usize).extent());
    reading
        .parser
        .failed
        .fail(WgslError::of_name("variable ", whole, text));
}

// Whether the attributes from an index on contain this one.
fn is_repeated(reading: &Reading, first: u32, word: AttributeWord) -> bool {
    let part = part_from(first, &reading.attributes);
    let known = reading
        .attributes
        .get(part.start as usize..part.end as usize)
        .unwrap_or(&[]);
    for attribute in known.iter().take(40) {
        if attribute.word == word && word != AttributeWord::Diagnostic {
            return true;
        }
    }
    false
}

// An attribute after its `@`.
fn attribute(reading: &mut Reading, first: u32) {
    let token = reading.parser.token();
    let extent = reading.parser.extent();
    if reading.parser.name().is_none() {
        reading.parser.refuse("expected identifier");
        return;
    }
    let Some(word) = attribute_of(reading.parser.tokens.part(extent)) else {
        reading
            .parser
            .failed
            .fail(WgslError::of_name("unknown attribute: ", extent, ""));
        return;
    };
    if is_repeated(reading, first, word) {
        reading
            .parser
            .failed
            .fail(WgslError::of_name("repeated attribute: ", extent, ""));
        return;
    }
    reading.parser.advance();
    let start = reading.parser.count();
    let mut count = 0;
    if word == AttributeWord::Diagnostic {
        reading.parser.expect(TokenKind::ParenOpen, "expected `(`");
        count = filter(&mut reading.parser);
    } else if word.has_arguments() {
        count = arguments(reading);
    }
    let steps = reading.steps_from(start);
    let attribute = Attribute {
        word,
        token,
        count,
        steps,
    };
    reading
        .parser
        .failed
        .push(&mut reading.attributes, attribute);
}

// Reports a diagnostic filter on a semicolon.
pub(crate) fn no_filters(reading: &mut Reading, part: Part) {
    for place in part.start..part.end {
        match reading.attributes.get(place as usize) {
            Some(attribute) if attribute.word == AttributeWord::Diagnostic => {
                let at = attribute.token.saturating_sub(1);
                let extent = reading.parser.tokens.at(at as usize).extent();
                reading.parser.failed.fail(WgslError::malformed(
                    "`@diagnostic(…)` attribute(s) on semicolons are not supported",
                    extent,
                ));
            }
            _ => {}
        }
    }
}

// Reads the arguments of an attribute. Returns their number.
fn arguments(reading: &mut Reading) -> u32 {
    reading.parser.expect(TokenKind::ParenOpen, "expected `(`");
    let mut count: u32 = 0;
    for _ in 0..reading.parser.tokens.list.len() {
        if reading.parser.has_failed() {
            break;
        }
        if count > 0 && reading.parser.kind() == TokenKind::ParenClose {
            break;
        }
        reading.parser.expression(Mode::Value);
        count = count.saturating_add(1);
        if !reading.parser.skip(TokenKind::Comma) {
            break;
        }
    }
    reading.parser.expect(TokenKind::ParenClose, "expected `)`");
    count
}
