//! Bit sets in words of 64 bits: the bit of a number is in the word `number / 64`.

ghost use Rattle.std.specs.Prelude.{◌≡◌, ◌*◌, ◌^◌, ◌<◌, ◌≤◌, ◌&&◌, ◌||◌, ◌-◌, ℕ, true, false, length, max, nat_eq, not, IfNone, IfSome, OnOk, OnErr};
ghost use Rattle.std.specs.Int.{div_ceil};
ghost use Rattle.ir_sets.specs.Bits.{has_bit, bits_of, Becomes, NoneBetween, IsFirst, IsGreatest, IsTrimmed, IsShort};

use std::alloc::AllocError;

/// Whether a number is a member.
pub fn contains(words: &[u64], number: usize) -> bool
    ensures { result ≡ has_bit words.now number }
{
    match words.get(number / 64) {
        Some(word) => (*word >> (number % 64)) & 1 == 1,
        None => false,
    }
}

/// Makes room for the numbers below `end`, and leaves the members unchanged.
///
/// # Errors
///
/// `AllocError` on out of memory. The words are then unchanged.
pub fn reserve(words: &mut Vec<u64>, end: usize) -> Result<(), AllocError>
    ensures room { OnOk result (end ≤ 64 * length words.new.items) }
    ensures len { OnOk result (length words.new.items ≡ max (length words.old.items) (div_ceil end 64)) }
    ensures longer { length words.old.items ≤ length words.new.items }
    ensures bits { (n : ℕ) → has_bit words.new.items n ≡ has_bit words.old.items n }
    ensures err { OnErr result (words.new.items ≡ words.old.items) }
{
    let count = end.div_ceil(64);
    if words.len() < count {
        words.resize(count, 0)?;
    }
    Ok(())
}

/// Inserts a number, for which there is room.
pub fn insert(words: &mut [u64], number: usize)
    requires { number < 64 * length words.old }
    ensures len { length words.new ≡ length words.old }
    ensures bits { (n : ℕ) → has_bit words.new n ≡ (nat_eq n number || has_bit words.old n) }
{
    words[number / 64] |= 1 << (number % 64);
}

/// Removes a number, if it is a member.
pub fn remove(words: &mut [u64], number: usize)
    ensures len { length words.new ≡ length words.old }
    ensures bits { (n : ℕ) → has_bit words.new n ≡ (not (nat_eq n number) && has_bit words.old n) }
{
    if number / 64 < words.len() {
        words[number / 64] &= !(1 << (number % 64));
    }
}

// The word with the bits `low..high` set.
fn ones_between(low: usize, high: usize) -> u64
    requires ordered { low < high }
    requires within { high ≤ 64 }
    ensures { result ≡ 2 ^ high - 2 ^ low }
{
    (u64::MAX >> (64 - (high - low))) << low
}

/// Inserts the numbers `from..end`, for which there is room. It takes time linear in the words of the range.
pub fn insert_between(words: &mut [u64], from: usize, end: usize)
    requires room { end ≤ 64 * length words.old }
    requires small { end ≤ 2 ^ 32 }
    ensures len { length words.new ≡ length words.old }
    ensures added { Becomes true (has_bit words.old) (has_bit words.new) from end }
{
    let mut place = from;
    while place < end {
        let index = place / 64;
        let next = end.min((index + 1) * 64);
        words[index] |= ones_between(place % 64, next - index * 64);
        place = next;
    }
}

/// Removes the numbers `from..end`. It takes time linear in the words of the range.
pub fn remove_between(words: &mut [u64], from: usize, end: usize)
    requires room { end ≤ 64 * length words.old }
    requires small { end ≤ 2 ^ 32 }
    ensures len { length words.new ≡ length words.old }
    ensures taken { Becomes false (has_bit words.old) (has_bit words.new) from end }
{
    let mut place = from;
    while place < end {
        let index = place / 64;
        let next = end.min((index + 1) * 64);
        words[index] &= !ones_between(place % 64, next - index * 64);
        place = next;
    }
}

/// The first member in `from..end`, if any. It takes time linear in the words of the range.
pub fn first_between(words: &[u64], from: usize, end: usize) -> Option<usize>
    requires { end ≤ 2 ^ 32 }
    ensures none { IfNone result (NoneBetween (has_bit words.now) from end) }
    ensures some { IfSome result (λ n. IsFirst (has_bit words.now) from end n) }
{
    let mut place = from;
    while place < end {
        let Some(word) = words.get(place / 64) else {
            return None;
        };
        let rest = *word >> (place % 64);
        if rest != 0 {
            let first = place + rest.trailing_zeros() as usize;
            return if first < end { Some(first) } else { None };
        }
        place = (place / 64 + 1) * 64;
    }
    None
}

// The number of members.
pub(crate) fn count(words: &[u64]) -> usize
    requires { IsShort words.now }
    ensures { result ≡ length (bits_of words.now) }
{
    let mut total = 0;
    for word in words {
        total += word.count_ones() as usize;
    }
    total
}

// The number of words up to the last one that is not 0.
pub(crate) fn greatest(words: &[u64]) -> Option<usize>
    requires trimmed { IsTrimmed words.now }
    requires short { IsShort words.now }
    ensures none { IfNone result (length words.now ≡ 0) }
    ensures some { IfSome result (λ n. IsGreatest words.now n) }
{
    let (last, before) = words.split_last()?;
    Some(before.len() * 64 + last.ilog2() as usize)
}

// Truncates the words after the last one that is not 0.
pub(crate) fn trim(words: &mut Vec<u64>)
    ensures shorter { length words.new.items ≤ length words.old.items }
    ensures trimmed { IsTrimmed words.new.items }
    ensures bits { (n : ℕ) → has_bit words.new.items n ≡ has_bit words.old.items n }
{
    let mut count = words.len();
    while count > 0 && words[count - 1] == 0 {
        count -= 1;
    }
    words.truncate(count);
}
