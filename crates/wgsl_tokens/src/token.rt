// Tokens.

use wgsl_text::Extent;

/// The kind of a token. `>` and an adjacent `>` or `=` are separate tokens, because only the context says
/// whether a template list ends there.
#[derive(Clone, Copy, PartialEq, Eq)]
pub enum TokenKind {
    /// A keyword or an identifier.
    Word,
    /// A number.
    Number,
    /// `(`.
    ParenOpen,
    /// `)`.
    ParenClose,
    /// `[`.
    BracketOpen,
    /// `]`.
    BracketClose,
    /// `{`.
    BraceOpen,
    /// `}`.
    BraceClose,
    /// `,`.
    Comma,
    /// `;`.
    Semicolon,
    /// `:`.
    Colon,
    /// `.`.
    Dot,
    /// `@`.
    At,
    /// `->`.
    Arrow,
    /// `=`.
    Equal,
    /// `==`.
    EqualEqual,
    /// `!=`.
    NotEqual,
    /// `<`.
    Less,
    /// `<=`.
    LessEqual,
    /// `<<`.
    ShiftLeft,
    /// `<<=`.
    ShiftLeftEqual,
    /// `>`.
    Greater,
    /// A `<` that opens a template list, after template list discovery.
    TemplateOpen,
    /// A `>` that closes a template list.
    TemplateClose,
    /// `>=`, joined from adjacent tokens.
    GreaterEqual,
    /// `>>`, joined from adjacent tokens.
    ShiftRight,
    /// `>>=`, joined from adjacent tokens.
    ShiftRightEqual,
    /// `+`.
    Plus,
    /// `++`.
    PlusPlus,
    /// `+=`.
    PlusEqual,
    /// `-`.
    Minus,
    /// `--`.
    MinusMinus,
    /// `-=`.
    MinusEqual,
    /// `*`.
    Star,
    /// `*=`.
    StarEqual,
    /// `/`.
    Slash,
    /// `/=`.
    SlashEqual,
    /// `%`.
    Percent,
    /// `%=`.
    PercentEqual,
    /// `&`.
    And,
    /// `&&`.
    AndAnd,
    /// `&=`.
    AndEqual,
    /// `|`.
    Or,
    /// `||`.
    OrOr,
    /// `|=`.
    OrEqual,
    /// `^`.
    Caret,
    /// `^=`.
    CaretEqual,
    /// `~`.
    Tilde,
    /// `!`.
    Bang,
    /// An unterminated comment.
    OpenComment,
    /// An invalid character.
    Unknown,
    /// The end of the text.
    End,
}

/// A token: the bytes from `start` on, before `end`.
#[derive(Clone, Copy)]
pub struct Token {
    /// Its kind.
    pub kind: TokenKind,
    /// Its first byte.
    pub start: u32,
    /// The first byte after it.
    pub end: u32,
}

impl Token {
    /// Its extent.
    pub fn extent(self) -> Extent {
        Extent {
            start: self.start,
            end: self.end,
        }
    }
}
