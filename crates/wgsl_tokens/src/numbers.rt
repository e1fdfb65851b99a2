// Values of number literals.
ghost use Rattle.std.specs.Prelude.{◌≤◌, ◌<◌, length};

use crate::extents::{NumberParts, Suffix, parts_at};
use crate::floats::{decimal_f32, decimal_f64, decimal_half, hexadecimal_float};
use ir_kinds::Literal;
use wgsl_text::{Extent, WgslError};

// The value of integer digits, if it fits in 64 bits.
fn whole_number(digits: &[u8], base: u64) -> Option<u64> {
    let mut number: u64 = 0;
    for byte in digits {
        let digit = match *byte {
            b'0'..=b'9' => byte - b'0',
            b'a'..=b'f' => byte - b'a' + 10,
            b'A'..=b'F' => byte - b'A' + 10,
            _ => return None,
        };
        number = number.checked_mul(base)?.checked_add(u64::from(digit))?;
    }
    Some(number)
}

// The value of an integer literal in the type of its suffix.
fn whole_literal(number: u64, suffix: Suffix) -> Option<Literal> {
    match suffix {
        Suffix::None => Some(Literal::AbstractInt(i64::try_from(number).ok()?)),
        Suffix::I => Some(Literal::I32(i32::try_from(number).ok()?)),
        Suffix::U => Some(Literal::U32(u32::try_from(number).ok()?)),
        Suffix::Li => Some(Literal::I64(i64::try_from(number).ok()?)),
        Suffix::Lu => Some(Literal::U64(number)),
        Suffix::F | Suffix::H | Suffix::Lf => None,
    }
}

// The value of a decimal float literal in the type of its suffix.
fn decimal_literal(digits: &[u8], suffix: Suffix) -> Option<Literal> {
    match suffix {
        Suffix::None => Some(Literal::AbstractFloat(decimal_f64(digits)?)),
        Suffix::F => Some(Literal::F32(decimal_f32(digits)?)),
        Suffix::H => Some(Literal::F16(decimal_half(digits)?)),
        Suffix::Lf => Some(Literal::F64(decimal_f64(digits)?)),
        Suffix::I | Suffix::U | Suffix::Li | Suffix::Lu => None,
    }
}

// Whether a literal with these parts is valid.
fn is_number(text: &[u8], start: usize, parts: &NumberParts) -> bool {
    if parts.hexadecimal {
        let first = start.saturating_add(2);
        let digits = parts.fraction.saturating_sub(first);
        let some = digits > usize::from(parts.point);
        return some && has_exponent_digits(text, parts);
    }
    let whole = text.get(start..parts.whole).unwrap_or(&[]);
    let fraction = parts.fraction.saturating_sub(parts.whole);
    let some = !whole.is_empty() || fraction > 1;
    let zeros = !parts.point && !parts.exponent && whole.len() > 1 && whole.first() == Some(&b'0');
    some && !zeros && has_exponent_digits(text, parts)
}

// Whether an exponent, if any, has digits.
fn has_exponent_digits(text: &[u8], parts: &NumberParts) -> bool {
    let last = text
        .get(parts.digits.saturating_sub(1))
        .copied()
        .unwrap_or(0);
    !parts.exponent || last.is_ascii_digit()
}

// The value of a literal with these parts.
fn literal_of(text: &[u8], start: usize, parts: &NumberParts) -> Option<Literal> {
    let is_float = parts.point
        || parts.exponent
        || matches!(parts.suffix, Suffix::F | Suffix::H | Suffix::Lf);
    let first = if parts.hexadecimal {
        start.saturating_add(2)
    } else {
        start
    };
    let digits = text.get(first..parts.digits).unwrap_or(&[]);
    match (parts.hexadecimal, is_float) {
        (true, true) => hexadecimal_float(digits, parts.suffix),
        (false, true) => decimal_literal(digits, parts.suffix),
        (true, false) => whole_literal(whole_number(digits, 16)?, parts.suffix),
        (false, false) => whole_literal(whole_number(digits, 10)?, parts.suffix),
    }
}

/// The value of a number literal. The error is that it is invalid, or not representable in its type.
pub fn number_at(text: &[u8], extent: Extent) -> Result<Literal, WgslError> {
    let start = (extent.start as usize).min(text.len());
    let parts = parts_at(text, start);
    if !is_number(text, start, &parts) {
        return Err(WgslError::of_name("invalid numeric literal format: ", extent, ""));
    }
    match literal_of(text, start, &parts) {
        Some(literal) => Ok(literal),
        None => Err(WgslError::of_name(
            "numeric literal not representable by target type: ",
            extent,
            "",
        )),
    }
}
