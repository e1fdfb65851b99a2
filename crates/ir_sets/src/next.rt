//! For each index the next index that passes a test.

ghost use Rattle.std.specs.Prelude.{◌≡◌, ℕ, ◌<◌, ◌≤◌, Bool, min, length, IfNone, IfOk, IfSome};
ghost use Rattle.ir_sets.specs.Bits.{IsFirst, NoneBetween};
ghost use Rattle.ir_sets.specs.Next.{AreNext};

use std::alloc::{AllocError, Global};

/// A test of indices.
pub trait PlaceTest {
    /// The result of the test for each index.
    ghost passes: { Self → ℕ → Bool };

    /// Whether an index passes.
    fn passes(&self, place: usize) -> bool
        requires { place < 4294967295 }
        ensures { result ≡ passes self.now place };
}

/// For each index below `count` the first one from it on that passes, `count` if none does. It tests each index once.
///
/// # Errors
///
/// `AllocError` on out of memory.
pub fn next_passing<T: PlaceTest>(
    alloc: Global,
    count: usize,
    test: &T,
) -> Result<Vec<u32>, AllocError>
    requires { count ≤ 4294967295 }
    ensures { IfOk result (λ next. AreNext (T.passes test.now) count next.items) }
{
    let mut next = vec![in alloc; count as u32; count]?;
    let mut first = count as u32;
    let mut place = count;
    while place > 0 {
        place -= 1;
        if test.passes(place) {
            first = place as u32;
        }
        next[place] = first;
    }
    Ok(next)
}

/// The first index in `from..end` that passes the test for which `next` was computed ([`next_passing`]). It
/// takes constant time.
pub fn first_passing(next: &[u32], from: usize, end: usize) -> Option<usize>
    ensures within { IfSome result (λ n. n < end) }
    ensures none { IfNone result ((test : ℕ → Bool) → AreNext test (length next.now) next.now → NoneBetween test from (min end (length next.now))) }
    ensures some { IfSome result (λ n. (test : ℕ → Bool) → AreNext test (length next.now) next.now → IsFirst test from (min end (length next.now)) n) }
{
    if from >= next.len() {
        return None;
    }
    let place = next[from] as usize;
    if place >= end.min(next.len()) {
        return None;
    }
    Some(place)
}
