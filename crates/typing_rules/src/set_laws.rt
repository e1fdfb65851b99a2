//! Laws of the sets and of one bits.

ghost use Rattle.std.specs.Prelude.{◌≡◌, ◌++◌, [], ◌∷◌, sum};
ghost use Rattle.ir_kinds.specs.judged.Scalars.{boolean, abstract_int, abstract_float};
ghost use Rattle.typing_rules.specs.judged.MathTable.{numbers, floats, integers, vectors};
ghost use Rattle.typing_rules.specs.found.Bits.{one_bits, IsRisingFrom, ArePowersOfTwo, MembersByBits};
ghost use Rattle.typing_rules.specs.found.Members.{scalars, scalars_in, sizes, sizes_in};

use crate::{ConstructorSet, ScalarSet};

/// The one bits of an integer ascend, are powers of two, and add up to the integer.
pub fn ones_of_a_number(bits: u64)
    ensures sum { sum (one_bits bits) ≡ bits }
    ensures rising { IsRisingFrom 0 (one_bits bits) }
    ensures powers { ArePowersOfTwo (one_bits bits) }
{}

/// A set has a scalar, or a constructor, exactly if the bit of its index among the twelve, or the thirteen, is set.
pub fn members_by_bits()
    ensures scalars { MembersByBits scalars }
    ensures sizes { MembersByBits sizes }
{}

/// The scalars of the named sets.
pub fn named_sets()
    ensures float { scalars_in ScalarSet.FLOAT.0 ≡ floats }
    ensures numeric { scalars_in ScalarSet.NUMERIC.0 ≡ numbers }
    ensures concrete_integer { scalars_in ScalarSet.CONCRETE_INTEGER.0 ≡ integers }
    ensures integer { scalars_in ScalarSet.INTEGER.0 ≡ abstract_int ∷ integers }
    ensures abstract_numbers { scalars_in ScalarSet.ABSTRACT.0 ≡ abstract_int ∷ abstract_float ∷ [] }
    ensures concrete_float { abstract_float ∷ scalars_in ScalarSet.CONCRETE_FLOAT.0 ≡ floats }
    ensures concrete { scalars_in ScalarSet.CONCRETE.0
        ≡ integers ++ scalars_in ScalarSet.CONCRETE_FLOAT.0 ++ boolean ∷ [] }
    ensures unimplemented { ScalarSet.FLOAT_ABSTRACT_UNIMPLEMENTED.0 ≡ ScalarSet.CONCRETE_FLOAT.0 }
    ensures vectors { sizes_in ConstructorSet.VECN.0 ≡ vectors }
{}
