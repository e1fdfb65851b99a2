// Float literals as bits.

use crate::extents::Suffix;
use ir_kinds::Literal;

// The nearest `f64` to a decimal number, if it is finite.
pub(crate) fn decimal_f64(digits: &[u8]) -> Option<u64> {
    let parsed: Result<f64, fast_float::Error> = fast_float::parse(digits);
    match parsed {
        Ok(value) if value.is_finite() && !value.is_nan() => Some(value.to_bits()),
        _ => None,
    }
}

// The nearest `f32` to a decimal number, if it is finite.
pub(crate) fn decimal_f32(digits: &[u8]) -> Option<u32> {
    let parsed: Result<f32, fast_float::Error> = fast_float::parse(digits);
    match parsed {
        Ok(value) if value.is_finite() && !value.is_nan() => Some(value.to_bits()),
        _ => None,
    }
}

// A decimal number as an `f16`, rounded from `f32`.
pub(crate) fn decimal_half(digits: &[u8]) -> Option<u16> {
    half_of(decimal_f32(digits)?)
}

// A magnitude divided by a power of two, rounded to nearest, ties to even.
fn rounded(number: u32, shift: u32) -> u32 {
    let shift = shift.min(31);
    if shift == 0 {
        return number;
    }
    let kept = number >> shift;
    let lost = number & !(u32::MAX << shift);
    let half = 1_u32 << (shift - 1);
    if lost > half || (lost == half && kept % 2 == 1) {
        kept.saturating_add(1)
    } else {
        kept
    }
}

/// The nearest `f16` to an `f32`, ties to even, if it is finite.
pub fn half_of(bits: u32) -> Option<u16> {
    let sign = (bits >> 16) & 0x8000;
    let magnitude = bits & 0x7fff_ffff;
    // 65520 and larger round to infinity
    if magnitude >= 0x477f_f000 {
        return None;
    }
    let half = if magnitude >= 0x3880_0000 {
        // exponents from 127 - 14 on become those from 15 - 14 on
        rounded(magnitude - 0x3800_0000, 13)
    } else {
        let shift = 126_u32.saturating_sub(magnitude >> 23);
        let mantissa = (magnitude & 0x007f_ffff) | 0x0080_0000;
        if magnitude < 0x3300_0000 {
            0
        } else {
            rounded(mantissa, shift)
        }
    };
    u16::try_from(sign | half).ok()
}

// An odd number times a power of two, or zero.
#[derive(Clone, Copy)]
struct Scaled {
    mantissa: u64,
    exponent: i64,
}

// A float format.
#[derive(Clone, Copy)]
struct FloatWidth {
    // the bits of the mantissa, with the hidden one
    precision: u32,
    // the largest exponent of two
    greatest: i64,
    // the smallest exponent of a normal number
    least: i64,
}

const F32: FloatWidth = FloatWidth {
    precision: 24,
    greatest: 127,
    least: -126,
};

const F64: FloatWidth = FloatWidth {
    precision: 53,
    greatest: 1023,
    least: -1022,
};

// The value of a hexadecimal digit.
fn hexadecimal_digit(byte: u8) -> Option<u64> {
    match byte {
        b'0'..=b'9' => Some(u64::from(byte - b'0')),
        b'a'..=b'f' => Some(u64::from(byte - b'a') + 10),
        b'A'..=b'F' => Some(u64::from(byte - b'A') + 10),
        _ => None,
    }
}

// The exponent of signed digits, clamped to 1000000000 each way.
fn exponent_of(digits: &[u8]) -> i64 {
    let mut number: i64 = 0;
    let mut negative = false;
    for byte in digits {
        match *byte {
            b'-' => negative = true,
            b'0'..=b'9' => {
                let digit = i64::from(*byte - b'0');
                number = number
                    .saturating_mul(10)
                    .saturating_add(digit)
                    .min(1_000_000_000);
            }
            _ => {}
        }
    }
    if negative {
        0_i64.saturating_sub(number)
    } else {
        number
    }
}

// The value of a hexadecimal float literal, if its mantissa fits in 64 bits.
fn scaled_of(digits: &[u8]) -> Option<Scaled> {
    let mut mantissa: u64 = 0;
    let mut exponent: i64 = 0;
    let mut after_point = false;
    let mut skipped = false;
    let mut place: usize = 0;
    for byte in digits {
        place = place.saturating_add(1);
        match *byte {
            b'.' => after_point = true,
            b'p' | b'P' => {
                let more = exponent_of(digits.get(place..).unwrap_or(&[]));
                exponent = exponent.saturating_add(more);
                break;
            }
            _ => {
                let digit = hexadecimal_digit(*byte)?;
                if digit == 0 && mantissa >= 1 << 59 {
                    skipped = true;
                    exponent = exponent.saturating_add(4);
                } else if skipped {
                    return None;
                } else {
                    mantissa = mantissa.checked_mul(16)?.checked_add(digit)?;
                }
                if after_point {
                    exponent = exponent.saturating_sub(4);
                }
            }
        }
    }
    Some(Scaled { mantissa, exponent })
}

// The bits of a number in a float format, if it is exactly representable.
fn exact_bits(number: Scaled, width: FloatWidth) -> Option<u64> {
    if number.mantissa == 0 {
        return Some(0);
    }
    let zeros = number.mantissa.trailing_zeros().min(63);
    let mantissa = number.mantissa >> zeros;
    let exponent = number.exponent.saturating_add(i64::from(zeros));
    let bits = 64_u32.saturating_sub(mantissa.leading_zeros());
    let top = exponent.saturating_add(i64::from(bits)).saturating_sub(1);
    let lowest = width
        .least
        .saturating_sub(i64::from(width.precision))
        .saturating_add(1);
    if bits > width.precision || top > width.greatest || exponent < lowest {
        return None;
    }
    let stored = width.precision.saturating_sub(1).min(63);
    if top < width.least {
        let shift = u32::try_from(exponent.saturating_sub(lowest)).ok()?.min(63);
        return Some(mantissa << shift);
    }
    let shift = width.precision.saturating_sub(bits).min(63);
    let hidden = u64::MAX.checked_shl(stored).unwrap_or(0);
    let fraction = (mantissa << shift) & !hidden;
    let biased = u64::try_from(top.saturating_add(width.greatest))
        .ok()?
        .min(2047);
    Some((biased << stored) | fraction)
}

// A hexadecimal float literal of the type of its suffix, which must represent it exactly.
pub(crate) fn hexadecimal_float(digits: &[u8], suffix: Suffix) -> Option<Literal> {
    let number = scaled_of(digits)?;
    match suffix {
        Suffix::None => Some(Literal::AbstractFloat(exact_bits(number, F64)?)),
        Suffix::Lf => Some(Literal::F64(exact_bits(number, F64)?)),
        Suffix::F => {
            let bits = exact_bits(number, F32)?;
            Some(Literal::F32(u32::try_from(bits).ok()?))
        }
        Suffix::I | Suffix::U | Suffix::H | Suffix::Li | Suffix::Lu => None,
    }
}
