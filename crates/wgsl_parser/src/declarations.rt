// Declarations at module scope.

use crate::attributes::attributes;
use crate::items::{Reading, part_from};
use crate::statements::body;
use wgsl_tokens::TokenKind;
use wgsl_tree::{Item, ItemKind, Member, Mode, Part};
use wgsl_words::Keyword;

// A declaration, without its identifier.
#[derive(Clone, Copy)]
struct Said {
    kind: ItemKind,
    steps: u32,
    members: Part,
}

// Reads a declaration after its attributes.
pub(crate) fn declaration(reading: &mut Reading, attributes: Part) {
    let first = reading.parser.token();
    let keyword = reading.parser.keyword();
    let is_item = matches!(
        keyword,
        Keyword::Const
            | Keyword::Override
            | Keyword::Var
            | Keyword::Alias
            | Keyword::Struct
            | Keyword::Fn
            | Keyword::ConstAssert
    );
    if !is_item {
        reading.parser.refuse(
            "expected global item (`struct`, `const`, `var`, `alias`, `fn`, `diagnostic`, `enable`, `requires`, `;`) or the end of the file",
        );
        return;
    }
    reading.parser.advance();
    let mut steps = reading.parser.count();
    let templates = if keyword == Keyword::Var {
        templates(reading)
    } else {
        0
    };
    let token = reading.parser.token();
    let name = if keyword == Keyword::ConstAssert {
        0
    } else {
        reading.parser.new_name()
    };
    let said = match keyword {
        Keyword::Const => constant(reading),
        Keyword::Override => overridable(reading),
        Keyword::Var => variable(reading, templates),
        Keyword::Alias => alias(reading),
        Keyword::Struct => members(reading),
        Keyword::Fn => function(reading),
        _ => assertion(reading),
    };
    if keyword == Keyword::Fn {
        steps = said.steps;
    }
    let item = Item {
        kind: said.kind,
        name,
        token,
        tokens: Part {
            start: first,
            end: reading.parser.token(),
        },
        attributes,
        steps: reading.steps_from(steps),
        members: said.members,
    };
    reading.parser.failed.push(&mut reading.items, item);
}

// A declaration that ends with a semicolon.
fn ended(reading: &mut Reading, kind: ItemKind) -> Said {
    reading.parser.expect(TokenKind::Semicolon, "expected `;`");
    Said {
        kind,
        steps: 0,
        members: Part::NONE,
    }
}

// Reads an optional type after a colon.
fn typed(reading: &mut Reading) -> bool {
    let is_typed = reading.parser.skip(TokenKind::Colon);
    if is_typed {
        reading.parser.expression(Mode::Type);
    }
    is_typed
}

// Reads an optional initializer after `=`.
fn initialized(reading: &mut Reading) -> bool {
    let is_initialized = reading.parser.skip(TokenKind::Equal);
    if is_initialized {
        reading.parser.expression(Mode::Value);
    }
    is_initialized
}

// A `const` after its identifier.
fn constant(reading: &mut Reading) -> Said {
    let is_typed = typed(reading);
    reading
        .parser
        .expect(TokenKind::Equal, "expected operation (`=`)");
    reading.parser.expression(Mode::Value);
    ended(reading, ItemKind::Const(is_typed))
}

// An `override` after its identifier.
fn overridable(reading: &mut Reading) -> Said {
    let typed = typed(reading);
    let init = initialized(reading);
    ended(reading, ItemKind::Override { typed, init })
}

// Reads the template arguments of `var`. Returns their number.
fn templates(reading: &mut Reading) -> u16 {
    let mut count: u16 = 0;
    if !reading.parser.skip(TokenKind::TemplateOpen) {
        return 0;
    }
    for _ in 0..reading.parser.tokens.list.len() {
        if reading.parser.has_failed() {
            break;
        }
        if count > 0 && reading.parser.kind() == TokenKind::TemplateClose {
            break;
        }
        reading.parser.expression(Mode::Value);
        count = count.saturating_add(1);
        if !reading.parser.skip(TokenKind::Comma) {
            break;
        }
    }
    reading
        .parser
        .expect(TokenKind::TemplateClose, "expected `>`");
    count
}

// A `var` after its identifier.
fn variable(reading: &mut Reading, templates: u16) -> Said {
    let typed = typed(reading);
    let init = initialized(reading);
    let kind = ItemKind::Variable {
        templates,
        typed,
        init,
    };
    ended(reading, kind)
}

// An `alias` after its identifier.
fn alias(reading: &mut Reading) -> Said {
    reading
        .parser
        .expect(TokenKind::Equal, "expected operation (`=`)");
    reading.parser.expression(Mode::Type);
    ended(reading, ItemKind::Alias)
}

// A `const_assert`.
fn assertion(reading: &mut Reading) -> Said {
    reading.parser.expression(Mode::Value);
    ended(reading, ItemKind::ConstAssert)
}

// Reads a member or a parameter with its attributes.
fn member(reading: &mut Reading) {
    let start = reading.attribute_count();
    attributes(reading);
    let attributes = part_from(start, &reading.attributes);
    let token = reading.parser.token();
    let name = reading.parser.new_name();
    reading.parser.expect(TokenKind::Colon, "expected `:`");
    typed_member(reading, name, token, attributes);
}

// Reads the type of a member, a parameter or a result.
fn typed_member(reading: &mut Reading, name: u32, token: u32, attributes: Part) {
    let start = reading.parser.count();
    reading.parser.expression(Mode::Type);
    let steps = reading.steps_from(start);
    let member = Member {
        name,
        token,
        attributes,
        steps,
    };
    reading.parser.failed.push(&mut reading.members, member);
}

// Reads members or parameters up to a closing token.
fn member_list(reading: &mut Reading, close: TokenKind, wanted: &'static str) {
    for _ in 0..reading.parser.tokens.list.len() {
        if reading.parser.has_failed() || reading.parser.kind() == close {
            break;
        }
        member(reading);
        if !reading.parser.skip(TokenKind::Comma) {
            break;
        }
    }
    reading.parser.expect(close, wanted);
}

// The number of members.
fn member_count(reading: &Reading) -> u32 {
    u32::try_from(reading.members.len()).unwrap_or(u32::MAX)
}

// A `struct` after its identifier.
fn members(reading: &mut Reading) -> Said {
    let start = member_count(reading);
    reading.parser.expect(TokenKind::BraceOpen, "expected `{`");
    member_list(reading, TokenKind::BraceClose, "expected `,`");
    Said {
        kind: ItemKind::Struct,
        steps: 0,
        members: part_from(start, &reading.members),
    }
}

// A `fn` after its identifier.
fn function(reading: &mut Reading) -> Said {
    let start = member_count(reading);
    reading.parser.expect(TokenKind::ParenOpen, "expected `(`");
    member_list(reading, TokenKind::ParenClose, "expected `)`");
    let has_result = reading.parser.skip(TokenKind::Arrow);
    if has_result {
        let start = reading.attribute_count();
        attributes(reading);
        let attributes = part_from(start, &reading.attributes);
        let token = reading.parser.token();
        typed_member(reading, 0, token, attributes);
    }
    let steps = reading.parser.count();
    body(&mut reading.parser);
    Said {
        kind: ItemKind::Function(has_result),
        steps,
        members: part_from(start, &reading.members),
    }
}
