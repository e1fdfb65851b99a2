// Punctuation and operators.
ghost use Rattle.std.specs.Prelude.{◌≤◌, ◌<◌, ◌+◌, length};

use crate::token::TokenKind;

// The token of two or three characters that begins here, and its length, or 0.
fn long_operator(text: &[u8], at: usize) -> (TokenKind, usize)
    requires { at ≤ length text.now }
    ensures { at + result.1 ≤ length text.now }
{
    match &text[at..] {
        [b'<', b'<', b'=', ..] => (TokenKind::ShiftLeftEqual, 3),
        [b'<', b'<', ..] => (TokenKind::ShiftLeft, 2),
        [b'<', b'=', ..] => (TokenKind::LessEqual, 2),
        [b'=', b'=', ..] => (TokenKind::EqualEqual, 2),
        [b'!', b'=', ..] => (TokenKind::NotEqual, 2),
        [b'-', b'>', ..] => (TokenKind::Arrow, 2),
        [b'+', b'+', ..] => (TokenKind::PlusPlus, 2),
        [b'-', b'-', ..] => (TokenKind::MinusMinus, 2),
        [b'&', b'&', ..] => (TokenKind::AndAnd, 2),
        [b'|', b'|', ..] => (TokenKind::OrOr, 2),
        _ => assigning_operator(text, at),
    }
}

// The compound assignment operator that begins here, and its length, or 0.
fn assigning_operator(text: &[u8], at: usize) -> (TokenKind, usize)
    requires { at ≤ length text.now }
    ensures { at + result.1 ≤ length text.now }
{
    match &text[at..] {
        [b'+', b'=', ..] => (TokenKind::PlusEqual, 2),
        [b'-', b'=', ..] => (TokenKind::MinusEqual, 2),
        [b'*', b'=', ..] => (TokenKind::StarEqual, 2),
        [b'/', b'=', ..] => (TokenKind::SlashEqual, 2),
        [b'%', b'=', ..] => (TokenKind::PercentEqual, 2),
        [b'&', b'=', ..] => (TokenKind::AndEqual, 2),
        [b'|', b'=', ..] => (TokenKind::OrEqual, 2),
        [b'^', b'=', ..] => (TokenKind::CaretEqual, 2),
        [b'/', b'*', ..] => (TokenKind::OpenComment, text.len() - at),
        _ => (TokenKind::Unknown, 0),
    }
}

// The token of a single character.
fn short_operator(byte: u8) -> TokenKind {
    match byte {
        b'(' => TokenKind::ParenOpen,
        b')' => TokenKind::ParenClose,
        b'[' => TokenKind::BracketOpen,
        b']' => TokenKind::BracketClose,
        b'{' => TokenKind::BraceOpen,
        b'}' => TokenKind::BraceClose,
        b',' => TokenKind::Comma,
        b';' => TokenKind::Semicolon,
        b':' => TokenKind::Colon,
        b'.' => TokenKind::Dot,
        b'@' => TokenKind::At,
        b'=' => TokenKind::Equal,
        _ => sign(byte),
    }
}

// The token of a single operator character.
fn sign(byte: u8) -> TokenKind {
    match byte {
        b'<' => TokenKind::Less,
        b'>' => TokenKind::Greater,
        b'+' => TokenKind::Plus,
        b'-' => TokenKind::Minus,
        b'*' => TokenKind::Star,
        b'/' => TokenKind::Slash,
        b'%' => TokenKind::Percent,
        b'&' => TokenKind::And,
        b'|' => TokenKind::Or,
        b'^' => TokenKind::Caret,
        b'~' => TokenKind::Tilde,
        b'!' => TokenKind::Bang,
        _ => TokenKind::Unknown,
    }
}

// The token that begins here, and its length; if `single`, of one character only.
pub(crate) fn operator_at(text: &[u8], at: usize, single: bool) -> (TokenKind, usize)
    requires { at < length text.now }
    ensures { at + result.1 ≤ length text.now }
{
    let long = if single {
        (TokenKind::Unknown, 0)
    } else {
        long_operator(text, at)
    };
    if long.1 > 0 {
        return long;
    }
    match short_operator(text[at]) {
        TokenKind::Unknown => (TokenKind::Unknown, 0),
        kind => (kind, 1),
    }
}
