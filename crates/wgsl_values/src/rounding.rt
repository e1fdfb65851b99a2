// Rounding of floats on their bits: to nearest, ties to even.

// An integer divided by a power of two, rounded to nearest, ties to even.
fn rounded(number: u64, shift: u32) -> u64 {
    if shift == 0 {
        return number;
    }
    if shift > 63 {
        return 0;
    }
    let kept = number >> shift;
    let lost = number & !(u64::MAX << shift);
    let half = 1_u64 << (shift - 1);
    if lost > half || (lost == half && kept % 2 == 1) {
        kept.saturating_add(1)
    } else {
        kept
    }
}

/// The nearest `f64` to an integer.
pub fn f64_of_integer(number: i64) -> u64 {
    let sign = if number < 0 { 1_u64 << 63 } else { 0 };
    let magnitude = number.unsigned_abs();
    if magnitude == 0 {
        return 0;
    }
    let top = 63_u32.saturating_sub(magnitude.leading_zeros());
    // the hidden bit adds one to the exponent
    let mantissa = if top > 52 {
        rounded(magnitude, top - 52)
    } else {
        let shift = 52 - top;
        magnitude << shift
    };
    let exponent = u64::from(top).saturating_add(1022) << 52;
    sign | exponent.saturating_add(mantissa)
}

/// The nearest `f32` to an `f64`, if it is finite.
pub fn f32_of_f64(bits: u64) -> Option<u32> {
    let sign = if bits >> 63 == 1 { 1_u64 << 31 } else { 0 };
    let exponent = (bits >> 52) & 0x7ff;
    let mantissa = (bits & 0x000f_ffff_ffff_ffff) | 0x0010_0000_0000_0000;
    if exponent > 1150 {
        return None;
    }
    let magnitude = if exponent >= 897 {
        let base = (exponent - 897) << 23;
        base.saturating_add(rounded(mantissa, 29))
    } else {
        let less = u32::try_from(897_u64.saturating_sub(exponent)).unwrap_or(63);
        rounded(mantissa, less.saturating_add(29))
    };
    if magnitude >= 0x7f80_0000 {
        return None;
    }
    u32::try_from(sign | magnitude).ok()
}
