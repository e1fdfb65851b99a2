// Functions of GLSL.std.450 on numbers.

use crate::kinds::{Class, Wrong};
use crate::numbers::Row;
use spirv_words::{Instruction, Listing, starts_text};

// Of what a function makes what, by its number, where its operands are alike.
fn row_of(number: u32) -> Option<Row> {
    match number {
        // Round to FAbs, FSign, Floor to InverseSqrt, FMin, FMax, FClamp, FMix, Step to Fma, Cross to Reflect, NMin to NClamp
        1..=4 | 6 | 8..=32 | 37 | 40 | 43 | 46 | 48..=50 | 68..=71 | 79..=81 => {
            Some(Row::whole(Class::Float))
        }
        // SAbs, SSign, UMin, SMin, UMax, SMax, UClamp, SClamp
        5 | 7 | 38 | 39 | 41 | 42 | 44 | 45 => Some(Row::whole(Class::Int)),
        // Length, Distance
        66 | 67 => Some(Row::joined(Class::Float, Class::Float)),
        // FindILsb, FindSMsb, FindUMsb
        73..=75 => Some(Row::counted(Class::Int, Class::Int)),
        _ => None,
    }
}

/// What is wrong with an extended instruction.
pub(crate) fn wrong_math(listing: &Listing, instruction: &Instruction) -> Wrong {
    let set = listing.defined(listing.operand(instruction, 0).unwrap_or(0));
    if !starts_text(listing.operands(&set), "GLSL.std.450", true) {
        return None;
    }
    match row_of(listing.operand(instruction, 1).unwrap_or(0)) {
        Some(row) => row.wrong(listing, instruction, 2),
        None => None,
    }
}
