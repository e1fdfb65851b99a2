// Exponentials, logarithms and trigonometric functions of `f64`, in the kit's arithmetic alone, so that each host computes the
// same. Results are within a few units in the last place.

use std::num::{f64_from_bits_with_nan, f64_to_bits_with_nan, saturating_f64_to_i32};

const PI: f64 = 3.141592653589793;

// What pi is more than `PI`.
const PI_REST: f64 = 1.2246467991473532e-16;

const HALF_PI: f64 = 1.5707963267948966;

// What pi / 2 is more than `HALF_PI`, in two parts.
const HALF_PI_REST: f64 = 6.123233995736766e-17;

const HALF_PI_LAST: f64 = -1.4973849048591698e-33;

const QUARTER_PI: f64 = 0.7853981633974483;

const TWO_OVER_PI: f64 = 0.6366197723675814;

// The logarithm of 2 and what it is more than that; and one with zeros at its end, so that a product with an exponent is exact, with
// its rest.
const LN_2: f64 = 0.6931471805599453;

const LN_2_REST: f64 = 2.3190468138462996e-17;

const LN_2_HIGH: f64 = 0.6931471803691238;

const LN_2_LOW: f64 = 1.9082149292705877e-10;

const LOG2_E: f64 = 1.4426950408889634;

const SQRT_2: f64 = 1.4142135623730951;

const INFINITY: f64 = 1.0 / 0.0;

// The greatest argument of which the quadrant is computed.
const MAX_ANGLE: f64 = 1073741824.0;

// A number as a sum of a float and a smaller one.
#[derive(Clone, Copy)]
struct Pair {
    high: f64,
    low: f64,
}

// The sum of a number and one that is not greater, as one number and what it lacks.
fn paired(number: f64, less: f64) -> Pair {
    let high = number + less;
    Pair {
        high,
        low: less - (high - number),
    }
}

// 2 to the power of an integer that gives a normal float.
fn power_of_two(exponent: i32) -> f64 {
    let biased = exponent.saturating_add(1023).clamp(1, 2046);
    f64_from_bits_with_nan(u64::from(biased.unsigned_abs()) << 52)
}

// A number times 2 to the power of an integer from -1100 to 1100.
fn scaled(number: f64, exponent: i32) -> f64 {
    let half = exponent / 2;
    number * power_of_two(half) * power_of_two(exponent.saturating_sub(half))
}

// The exponential of a sum.
fn exp_of(sum: Pair) -> f64 {
    if sum.high > 710.0 {
        return INFINITY;
    }
    if sum.high < -746.0 {
        return 0.0;
    }
    let twos = (sum.high * LOG2_E).round_ties_even();
    let most = twos.mul_add(-LN_2_HIGH, sum.high);
    let less = twos * LN_2_LOW;
    let near = most - less;
    let low = (most - near - less) + sum.low;
    let rest = paired(near, low);
    scaled(exp_series(rest), saturating_f64_to_i32(twos))
}

// The exponential of a number between -0.4 and 0.4.
fn exp_series(number: Pair) -> f64 {
    let of = number.high;
    let mut sum = 1.0;
    let mut place = 16.0;
    for _ in 0..14_u32 {
        sum = 1.0 + of * sum / place;
        place = place - 1.0;
    }
    let above = paired(of, number.low + of * of * (sum / 2.0));
    let whole = paired(1.0, above.high);
    whole.high + (whole.low + above.low)
}

// `exp`.
pub(crate) fn exp(number: f64) -> f64 {
    exp_of(Pair {
        high: number,
        low: 0.0,
    })
}

// `exp2`.
pub(crate) fn exp2(number: f64) -> f64 {
    if number > 1025.0 {
        return INFINITY;
    }
    if number < -1076.0 {
        return 0.0;
    }
    let twos = number.round_ties_even();
    let part = number - twos;
    let high = part * LN_2;
    let rest = Pair {
        high,
        low: part.mul_add(LN_2, -high) + part * LN_2_REST,
    };
    scaled(exp_series(rest), saturating_f64_to_i32(twos))
}

// A positive number as a mantissa near 1 and an exponent of 2.
fn parts_of(number: f64) -> (f64, i32) {
    let (number, less) = if number < 1e-300 {
        (number * power_of_two(64), 64)
    } else {
        (number, 0)
    };
    let bits = f64_to_bits_with_nan(number);
    let exponent = i32::try_from((bits >> 52) & 0x7ff).unwrap_or(1023);
    let exponent = exponent.saturating_sub(1023).saturating_sub(less);
    let mantissa = f64_from_bits_with_nan((bits & 0x000f_ffff_ffff_ffff) | (1023 << 52));
    if mantissa > SQRT_2 {
        (mantissa / 2.0, exponent.saturating_add(1))
    } else {
        (mantissa, exponent)
    }
}

// The logarithm of a mantissa near 1, as a series in (m - 1) / (m + 1).
fn ln_of_mantissa(mantissa: f64) -> Pair {
    let above = mantissa - 1.0;
    let below = mantissa + 1.0;
    let ratio = above / below;
    let lost = mantissa - (below - 1.0);
    let rest = ((-ratio).mul_add(below, above) - ratio * lost) / below;
    let square = ratio * ratio;
    let mut sum = 0.0;
    let mut place = 33.0;
    for _ in 0..16_u32 {
        sum = square * (1.0 / place + sum);
        place = place - 2.0;
    }
    Pair {
        high: 2.0 * ratio,
        low: 2.0 * rest + 2.0 * ratio * sum,
    }
}

// The logarithm of a positive number.
fn ln_pair(number: f64) -> Pair {
    let (mantissa, exponent) = parts_of(number);
    let twos = f64::from(exponent);
    let of = ln_of_mantissa(mantissa);
    let whole = twos * LN_2_HIGH;
    let high = whole + of.high;
    let lost = if exponent == 0 {
        0.0
    } else {
        of.high - (high - whole)
    };
    let low = lost + (of.low + twos * LN_2_LOW);
    paired(high, low)
}

// `log` of a positive number.
pub(crate) fn ln(number: f64) -> f64 {
    let made = ln_pair(number);
    made.high + made.low
}

// `log2` of a positive number.
pub(crate) fn log2(number: f64) -> f64 {
    let (mantissa, exponent) = parts_of(number);
    let of = ln_of_mantissa(mantissa);
    f64::from(exponent) + (of.high + of.low) * LOG2_E
}

// The logarithm of 1 and a number that is at least 0.
fn ln_1p(number: f64) -> f64 {
    let sum = 1.0 + number;
    if sum == 1.0 {
        number
    } else {
        ln(sum) * (number / (sum - 1.0))
    }
}

// A number to the power of a small integer, if each product is exact.
fn exact_power(number: f64, exponent: f64) -> Option<f64> {
    let count = exponent.abs();
    if count > 64.0 || count.trunc() != count {
        return None;
    }
    let mut product = 1.0;
    let mut made = 0.0;
    for _ in 0..64_u32 {
        if made >= count {
            break;
        }
        let next = product * number;
        if product.mul_add(number, -next) != 0.0 || next.is_infinite() {
            return None;
        }
        product = next;
        made = made + 1.0;
    }
    if exponent < 0.0 {
        product = 1.0 / product;
    }
    Some(product)
}

// `pow` of a number that is at least 0.
pub(crate) fn pow(number: f64, exponent: f64) -> f64 {
    if let Some(exact) = exact_power(number, exponent) {
        return exact;
    }
    if number == 0.0 {
        return if exponent < 0.0 { INFINITY } else { 0.0 };
    }
    let log = ln_pair(number);
    let high = exponent * log.high;
    if high.abs() > 1000.0 {
        return if high > 0.0 { INFINITY } else { 0.0 };
    }
    exp_of(Pair {
        high,
        low: exponent.mul_add(log.high, -high) + exponent * log.low,
    })
}

// The sine and the cosine of a number, if it is not too large.
fn sine_cosine(number: f64) -> Option<(f64, f64)> {
    if !(number.abs() <= MAX_ANGLE) {
        return None;
    }
    let quarters = (number * TWO_OVER_PI).round_ties_even();
    let rest = quarters.mul_add(-HALF_PI, number);
    let rest = quarters.mul_add(-HALF_PI_REST, rest) - quarters * HALF_PI_LAST;
    let (sine, cosine) = (sine_series(rest), cosine_series(rest));
    match saturating_f64_to_i32(quarters) & 3 {
        0 => Some((sine, cosine)),
        1 => Some((cosine, -sine)),
        2 => Some((-sine, -cosine)),
        _ => Some((-cosine, sine)),
    }
}

// The sine of a number between -0.8 and 0.8.
fn sine_series(number: f64) -> f64 {
    let square = number * number;
    let mut sum = 1.0;
    let mut place = 22.0;
    for _ in 0..11_u32 {
        sum = 1.0 - square * sum / (place * (place + 1.0));
        place = place - 2.0;
    }
    number * sum
}

// The cosine of a number between -0.8 and 0.8.
fn cosine_series(number: f64) -> f64 {
    let square = number * number;
    let mut sum = 1.0;
    let mut place = 22.0;
    for _ in 0..11_u32 {
        sum = 1.0 - square * sum / (place * (place - 1.0));
        place = place - 2.0;
    }
    sum
}

// `sin`, if the number is not too large.
pub(crate) fn sin(number: f64) -> Option<f64> {
    Some(sine_cosine(number)?.0)
}

// `cos`, if the number is not too large.
pub(crate) fn cos(number: f64) -> Option<f64> {
    Some(sine_cosine(number)?.1)
}

// `tan`, if the number is not too large.
pub(crate) fn tan(number: f64) -> Option<f64> {
    let (sine, cosine) = sine_cosine(number)?;
    Some(sine / cosine)
}

// The arc tangent of a number between -0.44 and 0.44.
fn atan_series(number: f64) -> f64 {
    let square = number * number;
    let mut sum = 0.0;
    let mut place = 51.0;
    for _ in 0..25_u32 {
        sum = square * (1.0 / place - sum);
        place = place - 2.0;
    }
    number - number * sum
}

// `atan`.
pub(crate) fn atan(number: f64) -> f64 {
    let size = number.abs();
    // the arc tangent of a number near this one, in two parts, and what is added to it
    let (base, low, rest) = if size <= 0.4375 {
        (0.0, 0.0, size)
    } else if size <= 0.6875 {
        (
            0.4636476090008061,
            2.2698777452961687e-17,
            (2.0 * size - 1.0) / (2.0 + size),
        )
    } else if size <= 1.1875 {
        (
            QUARTER_PI,
            3.061616997868383e-17,
            (size - 1.0) / (size + 1.0),
        )
    } else if size <= 2.4375 {
        (
            0.982793723247329,
            1.3903311031230998e-17,
            (size - 1.5) / (1.0 + 1.5 * size),
        )
    } else {
        (HALF_PI, HALF_PI_REST, -1.0 / size)
    };
    let made = base + (atan_series(rest) + low);
    if number < 0.0 { -made } else { made }
}

// Whether the sign of a number is minus.
fn is_minus(number: f64) -> bool {
    f64_to_bits_with_nan(number) >> 63 == 1
}

// `atan2`.
pub(crate) fn atan2(y: f64, x: f64) -> f64 {
    let of = if y == 0.0 && x == 0.0 {
        0.0
    } else {
        atan((y / x).abs())
    };
    let made = if is_minus(x) { PI - (of - PI_REST) } else { of };
    if is_minus(y) { -made } else { made }
}

// The arc sine of a number from 0 to 0.71.
fn asin_near(number: f64) -> f64 {
    atan(number / ((1.0 - number) * (1.0 + number)).sqrt())
}

// `acos` of a number from -1 to 1.
pub(crate) fn acos(number: f64) -> f64 {
    if number > 0.5 {
        return 2.0 * asin_near(((1.0 - number) / 2.0).sqrt());
    }
    if number < -0.5 {
        return PI - (2.0 * asin_near(((1.0 + number) / 2.0).sqrt()) - PI_REST);
    }
    HALF_PI - (asin(number) - HALF_PI_REST)
}

// `asin` of a number from -1 to 1.
pub(crate) fn asin(number: f64) -> f64 {
    let size = number.abs();
    let made = if size > 0.5 {
        HALF_PI - (2.0 * asin_near(((1.0 - size) / 2.0).sqrt()) - HALF_PI_REST)
    } else {
        asin_near(size)
    };
    if number < 0.0 { -made } else { made }
}

// The hyperbolic sine of a number from -1 to 1.
fn sinh_series(number: f64) -> f64 {
    let square = number * number;
    let mut sum = 1.0;
    let mut place = 22.0;
    for _ in 0..11_u32 {
        sum = 1.0 + square * sum / (place * (place + 1.0));
        place = place - 2.0;
    }
    number * sum
}

// `sinh`.
pub(crate) fn sinh(number: f64) -> f64 {
    let size = number.abs();
    if size < 1.0 {
        return sinh_series(number);
    }
    let half = exp(size / 2.0);
    let made = half * (half / 2.0) - 0.5 / half / half;
    if number < 0.0 { -made } else { made }
}

// `cosh`.
pub(crate) fn cosh(number: f64) -> f64 {
    let half = exp(number.abs() / 2.0);
    half * (half / 2.0) + 0.5 / half / half
}

// `tanh`.
pub(crate) fn tanh(number: f64) -> f64 {
    let size = number.abs();
    if size < 0.5 {
        return sinh_series(number) / cosh(number);
    }
    let made = 1.0 - 2.0 / (exp(2.0 * size) + 1.0);
    if number < 0.0 { -made } else { made }
}

// `asinh`.
pub(crate) fn asinh(number: f64) -> f64 {
    let size = number.abs();
    let made = if size > 1e9 {
        ln(size) + LN_2
    } else {
        ln_1p(size + size * size / (1.0 + (1.0 + size * size).sqrt()))
    };
    if number < 0.0 { -made } else { made }
}

// `acosh` of a number that is at least 1.
pub(crate) fn acosh(number: f64) -> f64 {
    if number > 1e9 {
        return ln(number) + LN_2;
    }
    let above = number - 1.0;
    ln_1p(above + (2.0 * above + above * above).sqrt())
}

// `atanh` of a number between -1 and 1.
pub(crate) fn atanh(number: f64) -> f64 {
    let size = number.abs();
    let made = 0.5 * ln_1p(2.0 * size / (1.0 - size));
    if number < 0.0 { -made } else { made }
}
