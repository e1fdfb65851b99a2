//! Searches for the first error in a list.

ghost use Rattle.std.specs.Prelude.{◌≡◌};
ghost use Rattle.std.specs.Option.{MatchOption};
ghost use Rattle.ir_items.specs.found.GlobalView.{values_of};
ghost use Rattle.typing_references.specs.First.{first_past};
ghost use Rattle.module_handles.specs.Found.{first_missing};
ghost use Rattle.module_handles.specs.Lists.{AllPass, SomeFails};
ghost use Rattle.spec_expressions.specs.judged.Operands.{given};

use ir_arena::arena::Arena;
use ir_arena::handle::Handle;
use spec_expressions::ItemKind;
use typing_references::HandleFault;

// The check of the items of a list, each at its index.
pub(crate) trait ItemCheck<T> {
    ghost use Rattle.std.specs.Prelude.{ℕ};
    ghost use Rattle.typing_references.specs.declared.fault.HandleFault.{HandleFault};

    ghost passes: { Self → ℕ → T → Type 0 };

    ghost fails: { Self → ℕ → T → HandleFault → Type 0 };

    // The error of an item, if it has one.
    fn check(&self, index: usize, item: &T) -> Option<HandleFault>
        ensures { MatchOption result (passes self.now index item.now) (fails self.now index item.now) };
}

// The first error of the values of an arena.
pub(crate) fn fault_of_values<T, K, C: ItemCheck<T>>(
    check: &C,
    values: &Arena<T, K>,
) -> Option<HandleFault>
    ensures { MatchOption result (AllPass (C.passes check.now) (values_of values.now)) (SomeFails (C.fails check.now) (values_of values.now)) }
{
    for index in 0..values.len() {
        let value = &values[Handle::at(index)];
        if let Some(fault) = check.check(index, value) {
            return Some(fault);
        }
    }
    None
}

// The first error of the items of a list.
pub(crate) fn fault_of_items<T, C: ItemCheck<T>>(check: &C, items: &[T]) -> Option<HandleFault>
    ensures { MatchOption result (AllPass (C.passes check.now) items.now) (SomeFails (C.fails check.now) items.now) }
{
    for index in 0..items.len() {
        let item = &items[index];
        if let Some(fault) = check.check(index, item) {
            return Some(fault);
        }
    }
    None
}

// The first of the given indices that is not below a bound.
fn given_past(places: &[Option<usize>], end: usize) -> Option<usize>
    ensures { result ≡ first_past end (given places.now) }
{
    for place in places {
        if let Some(place) = place {
            if *place >= end {
                return Some(*place);
            }
        }
    }
    None
}

// The error of the first of the given indices that is out of bounds.
pub(crate) fn first_missing(
    kind: ItemKind,
    there: usize,
    places: &[Option<usize>],
) -> Option<HandleFault>
    ensures { result ≡ first_missing kind there (given places.now) }
{
    match given_past(places, there) {
        Some(index) => Some(HandleFault::Missing { kind, index }),
        None => None,
    }
}
