// Module-scope items.

use crate::steps::Step;
use ir_flags::Capabilities;
use ir_kinds::Literal;
use wgsl_tokens::Tokens;
use wgsl_words::AttributeWord;

/// A range of a table: the indices from `start` to before `end`.
#[derive(Clone, Copy)]
pub struct Part {
    /// The first index.
    pub start: u32,
    /// The index after the last one.
    pub end: u32,
}

impl Part {
    /// The empty range.
    pub const NONE: Part = Part { start: 0, end: 0 };

    /// Its length.
    pub fn count(self) -> u32 {
        self.end.saturating_sub(self.start)
    }
}

/// The kind of an item.
#[derive(Clone, Copy)]
pub enum ItemKind {
    /// `const`, and whether it has a type.
    Const(bool),
    /// `override`.
    Override {
        /// Whether it has a type.
        typed: bool,
        /// Whether it has an initializer.
        init: bool,
    },
    /// `var`.
    Variable {
        /// The number of template arguments.
        templates: u16,
        /// Whether it has a type.
        typed: bool,
        /// Whether it has an initializer.
        init: bool,
    },
    /// `alias`.
    Alias,
    /// `struct`.
    Struct,
    /// `fn`, and whether its last member is a result.
    Function(bool),
    /// `const_assert`.
    ConstAssert,
}

/// An item of a text.
#[derive(Clone, Copy)]
pub struct Item {
    /// Its kind.
    pub kind: ItemKind,
    /// Its identifier number.
    pub name: u32,
    /// The token of its identifier.
    pub token: u32,
    /// Its tokens without the attributes.
    pub tokens: Part,
    /// Its attributes.
    pub attributes: Part,
    /// The steps of its template arguments, type, initializer or body, in this order.
    pub steps: Part,
    /// The members of a struct; the parameters of a function, with its result.
    pub members: Part,
}

/// A member of a struct, a parameter, or a result.
#[derive(Clone, Copy)]
pub struct Member {
    /// Its identifier number.
    pub name: u32,
    /// The token of its identifier, or of its type.
    pub token: u32,
    /// Its attributes.
    pub attributes: Part,
    /// The steps of its type.
    pub steps: Part,
}

/// An attribute.
#[derive(Clone, Copy)]
pub struct Attribute {
    /// Which one.
    pub word: AttributeWord,
    /// The token of its identifier.
    pub token: u32,
    /// The number of its arguments.
    pub count: u32,
    /// Their steps.
    pub steps: Part,
}

/// A parsed text.
pub struct Tree {
    /// Its tokens.
    pub tokens: Tokens,
    /// The steps of all items.
    pub steps: Vec<Step>,
    /// Its literals.
    pub literals: Vec<Literal>,
    /// The items, in order.
    pub items: Vec<Item>,
    /// The members of its structs, and the parameters of its functions.
    pub members: Vec<Member>,
    /// All attributes.
    pub attributes: Vec<Attribute>,
    /// Its diagnostic directives, among the attributes.
    pub directives: Part,
    /// The capabilities of its enable directives.
    pub enabled: Capabilities,
}

// Written out, so that dropping it is one call of this crate.
impl Drop for Tree {
    fn drop(self) {
        let Tree {
            tokens: _tokens,
            steps: _steps,
            literals: _literals,
            items: _items,
            members: _members,
            attributes: _attributes,
            directives: _,
            enabled: _enabled,
        } = self;
    }
}
