// The items of a text.

use crate::attributes::{attributes, check_binding, no_filters};
use crate::declarations::declaration;
use crate::directives::directives;
use ir_flags::Capabilities;
use std::alloc::Global;
use wgsl_text::{WgslError, check_source};
use wgsl_tokens::{TokenKind, tokenize};
use wgsl_tree::{Attribute, Item, Member, Parser, Part, Tree};

// The parser's state for items.
pub(crate) struct Reading {
    pub parser: Parser,
    pub items: Vec<Item>,
    pub members: Vec<Member>,
    pub attributes: Vec<Attribute>,
    // the diagnostic directives, among the attributes
    pub directives: Part,
    pub enabled: Capabilities,
}

// Written out, so that dropping it is one call.
impl Drop for Reading {
    fn drop(self) {
        let Reading {
            parser: _parser,
            items: _items,
            members: _members,
            attributes: _attributes,
            directives: _,
            enabled: _,
        } = self;
    }
}

// The range from an index to the end of a table.
pub(crate) fn part_from<T>(start: u32, table: &[T]) -> Part {
    Part {
        start,
        end: u32::try_from(table.len()).unwrap_or(u32::MAX),
    }
}

impl Reading {
    // The number of attributes.
    pub(crate) fn attribute_count(&self) -> u32 {
        u32::try_from(self.attributes.len()).unwrap_or(u32::MAX)
    }

    // The steps from an index on.
    pub(crate) fn steps_from(&self, start: u32) -> Part {
        Part {
            start,
            end: self.parser.count(),
        }
    }

    // All items.
    fn read(&mut self) {
        directives(self);
        self.directives = part_from(0, &self.attributes);
        for _ in 0..self.parser.tokens.list.len() {
            if self.parser.has_failed() || self.parser.kind() == TokenKind::End {
                break;
            }
            if self.parser.skip(TokenKind::Semicolon) {
                continue;
            }
            let start = self.attribute_count();
            attributes(self);
            let attributes = part_from(start, &self.attributes);
            if self.parser.kind() == TokenKind::End && attributes.count() > 0 {
                break;
            }
            if self.parser.skip(TokenKind::Semicolon) {
                no_filters(self, attributes);
                continue;
            }
            check_binding(self, attributes);
            declaration(self, attributes);
        }
    }

    // The parsed text.
    fn finish(self) -> Result<Tree, WgslError> {
        let Reading {
            parser,
            items,
            members,
            attributes,
            directives,
            enabled,
        } = self;
        let failed = parser.failed;
        let (tokens, steps, literals) = parser.into_parts();
        failed.answer(Tree {
            tokens,
            steps,
            literals,
            items,
            members,
            attributes,
            directives,
            enabled,
        })
    }
}

/// Parses bytes. The error is out of memory, not WGSL, or past a bound.
pub fn parse(alloc: Global, bytes: &[u8]) -> Result<Tree, WgslError> {
    check_source(bytes)?;
    let tokens = tokenize(alloc, bytes)?;
    let mut reading = Reading {
        parser: Parser::new(alloc, tokens),
        items: Vec::new(alloc),
        members: Vec::new(alloc),
        attributes: Vec::new(alloc),
        directives: Part::NONE,
        enabled: Capabilities(0),
    };
    reading.read();
    reading.finish()
}
