//! The broken rules of `Swizzle`.

ghost use Rattle.std.specs.Prelude.{IfSome};
ghost use Rattle.check_causes.specs.Swizzles.{BrokenLetter, BrokenSwizzle};

use ir_kinds::{SwizzleComponent, VectorSize};
use module_context::shaped_of;
use spec_statements::Shape;
use typing_forms::Form;

/// A broken rule of a `Swizzle`.
#[derive(Clone, Copy)]
pub enum SwizzleCause {
    /// The operand has this type, which is not a vector.
    NoVector(Form),
    /// A used pattern component is out of bounds for this vector size.
    Letter(SwizzleComponent, VectorSize),
}

// The first used component of a pattern that is out of bounds of a vector, if any.
fn broken_letter(
    size: VectorSize,
    pattern: [SwizzleComponent; 4],
    of: VectorSize,
) -> Option<SwizzleComponent>
    ensures { IfSome result (BrokenLetter size pattern of) }
{
    for place in 0..4usize {
        let letter = pattern[place];
        if place < u32::from(size) as usize && letter.index() >= u32::from(of) {
            return Some(letter);
        }
    }
    None
}

/// The broken rule of a `Swizzle`, if any: each used pattern component is in bounds of the vector.
pub fn broken_swizzle(
    size: VectorSize,
    pattern: [SwizzleComponent; 4],
    of: &Form,
) -> Option<SwizzleCause>
    ensures { IfSome result (BrokenSwizzle size pattern of.now) }
{
    let Some(shaped) = shaped_of(*of) else {
        return Some(SwizzleCause::NoVector(*of));
    };
    let Shape::Vector(count) = shaped.shape else {
        return Some(SwizzleCause::NoVector(*of));
    };
    match broken_letter(size, pattern, count) {
        Some(letter) => Some(SwizzleCause::Letter(letter, count)),
        None => None,
    }
}
