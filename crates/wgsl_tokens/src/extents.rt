// The extent of a number literal and its parts, by the rules of the standard and of naga.
ghost use Rattle.std.specs.Prelude.{◌≤◌, ◌<◌, ◌+◌, length};

// The suffix of a number literal.
#[derive(Clone, Copy, PartialEq, Eq)]
pub(crate) enum Suffix {
    None,
    I,
    U,
    F,
    H,
    Li,
    Lu,
    Lf,
}

// The ends of the parts of a number literal.
#[derive(Clone, Copy)]
pub(crate) struct NumberParts {
    // whether it is hexadecimal
    pub hexadecimal: bool,
    // the digits before the point, after any `0x`
    pub whole: usize,
    // whether there is a point
    pub point: bool,
    // the digits after it
    pub fraction: usize,
    // whether there is an exponent
    pub exponent: bool,
    // all but the suffix
    pub digits: usize,
    // the suffix
    pub suffix: Suffix,
    // the whole literal
    pub end: usize,
}

// Whether a byte is a digit.
fn is_digit(byte: u8, hexadecimal: bool) -> bool {
    if hexadecimal {
        byte.is_ascii_hexdigit()
    } else {
        byte.is_ascii_digit()
    }
}

// The end of the digits.
fn digits_end(text: &[u8], start: usize, hexadecimal: bool) -> usize
    requires { start ≤ length text.now }
    ensures more { start ≤ result }
    ensures within { result ≤ length text.now }
{
    for at in start..text.len() {
        if !is_digit(text[at], hexadecimal) {
            return at;
        }
    }
    text.len()
}

// The end of the exponent that begins here, or this byte if there is none.
fn exponent_end(text: &[u8], at: usize, hexadecimal: bool) -> usize
    requires { at ≤ length text.now }
    ensures more { at ≤ result }
    ensures within { result ≤ length text.now }
{
    if at == text.len() {
        return at;
    }
    let begins = match text[at] {
        b'e' | b'E' => !hexadecimal,
        b'p' | b'P' => hexadecimal,
        _ => false,
    };
    if !begins {
        return at;
    }
    let sign = match &text[at + 1..] {
        [b'+' | b'-', ..] => at + 2,
        _ => at + 1,
    };
    digits_end(text, sign, false)
}

// The suffix of an integer literal that begins here, and its length.
fn whole_suffix(text: &[u8], at: usize) -> (Suffix, usize)
    requires { at ≤ length text.now }
    ensures { at + result.1 ≤ length text.now }
{
    match &text[at..] {
        [b'i', ..] => (Suffix::I, 1),
        [b'u', ..] => (Suffix::U, 1),
        [b'l', b'i', ..] => (Suffix::Li, 2),
        [b'l', b'u', ..] => (Suffix::Lu, 2),
        _ => (Suffix::None, 0),
    }
}

// The suffix of a float literal that begins here, and its length.
fn float_suffix(text: &[u8], at: usize) -> (Suffix, usize)
    requires { at ≤ length text.now }
    ensures { at + result.1 ≤ length text.now }
{
    match &text[at..] {
        [b'f', ..] => (Suffix::F, 1),
        [b'h', ..] => (Suffix::H, 1),
        [b'l', b'f', ..] => (Suffix::Lf, 2),
        _ => (Suffix::None, 0),
    }
}

// The suffix of a literal with these parts.
fn suffix_at(
    text: &[u8],
    at: usize,
    hexadecimal: bool,
    point: bool,
    exponent: bool,
) -> (Suffix, usize)
    requires { at ≤ length text.now }
    ensures { at + result.1 ≤ length text.now }
{
    if exponent {
        return float_suffix(text, at);
    }
    if point {
        return if hexadecimal {
            (Suffix::None, 0)
        } else {
            float_suffix(text, at)
        };
    }
    let whole = whole_suffix(text, at);
    if whole.1 == 0 && !hexadecimal {
        float_suffix(text, at)
    } else {
        whole
    }
}

// The end of the `0x` that begins here, or this byte if there is none.
fn prefix_end(text: &[u8], at: usize) -> usize
    requires { at ≤ length text.now }
    ensures more { at ≤ result }
    ensures within { result ≤ length text.now }
{
    match &text[at..] {
        [b'0', b'x' | b'X', ..] => at + 2,
        _ => at,
    }
}

// The parts of the literal that begins here, possibly empty.
pub(crate) fn parts_at(text: &[u8], start: usize) -> NumberParts
    requires { start ≤ length text.now }
    ensures more { start ≤ result.end }
    ensures within { result.end ≤ length text.now }
    ensures whole { result.whole ≤ result.fraction }
    ensures fraction { result.fraction ≤ result.digits }
    ensures digits { result.digits ≤ result.end }
{
    let first = prefix_end(text, start);
    let hexadecimal = first > start;
    let whole = digits_end(text, first, hexadecimal);
    let point = whole < text.len() && text[whole] == b'.';
    let fraction = if point {
        digits_end(text, whole + 1, hexadecimal)
    } else {
        whole
    };
    let digits = exponent_end(text, fraction, hexadecimal);
    let exponent = digits > fraction;
    let (suffix, length) = suffix_at(text, digits, hexadecimal, point, exponent);
    NumberParts {
        hexadecimal,
        whole,
        point,
        fraction,
        exponent,
        digits,
        suffix,
        end: digits + length,
    }
}

// Whether a number literal begins here.
pub(crate) fn starts_number(text: &[u8], at: usize) -> bool
    requires { at ≤ length text.now }
{
    matches!(&text[at..], [b'0'..=b'9', ..] | [b'.', b'0'..=b'9', ..])
}

// The end of the number literal that begins here.
pub(crate) fn number_end(text: &[u8], start: usize) -> usize
    requires { start < length text.now }
    ensures more { start < result }
    ensures within { result ≤ length text.now }
{
    parts_at(text, start).end.max(start + 1)
}
