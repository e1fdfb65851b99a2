//! Laws of sets of slots.

ghost use Rattle.std.specs.Prelude.{◌≡◌, ◌↔◌, ◌⊎◌};
ghost use Rattle.std.specs.Int.RustNames.{bit_or};
ghost use Rattle.module_globals.specs.Slots.{IsIn, ContainsByDifference, ContainsBySlots, UnionBySlots, UnionsAgree, SlotsAreAll};

/// A set contains another exactly if every slot of the other is in it.
pub fn contains_by_slots()
    ensures { ContainsBySlots }
{}

/// A slot is in the union of two sets exactly if it is in one of them.
pub fn union_by_slots()
    ensures { UnionBySlots }
{}

/// Two sets are equal if they have the same slots.
pub fn slots_are_all()
    ensures { SlotsAreAll }
{}

/// Union is associative, commutative and idempotent.
pub fn unions_agree()
    ensures { UnionsAgree }
{}

/// A set contains another exactly if the [`ImmediateSlots::difference`](crate::ImmediateSlots::difference) of the other and it is
/// empty.
pub fn contains_by_difference()
    ensures { ContainsByDifference }
{}
