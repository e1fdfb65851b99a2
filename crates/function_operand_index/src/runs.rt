//! The minimum and maximum of many numbers, run by run.

ghost use Rattle.std.specs.Prelude.{◌≡◌, ◌+◌, ◌/◌, ◌<◌, ◌≤◌, ℕ, IfOk, IsTrue, length, slice_index_or};
ghost use Rattle.function_operand_index.specs.Runs.{AreRuns};

use std::alloc::{AllocError, Global};

/// The length of a run.
pub(crate) const NEAR: usize = 64;
/// The length of a long run.
pub(crate) const FAR: usize = 4096;

/// The minimum and maximum of each run of 64, and of each run of 4096, of a list of numbers.
#[derive(Drop)]
pub(crate) struct Runs {
    /// The minima of runs of 64.
    pub(crate) lows: Vec<u32>,
    /// The maxima of runs of 64.
    pub(crate) highs: Vec<u32>,
    /// The minima of runs of 4096.
    pub(crate) far_lows: Vec<u32>,
    /// The maxima of runs of 4096.
    pub(crate) far_highs: Vec<u32>,
}

// Lowers a number to another one if that is less.
fn lower(numbers: &mut [u32], index: usize, most: u32)
    requires { index < length numbers.old }
    ensures len { length numbers.new ≡ length numbers.old }
    ensures less { (k : ℕ) → slice_index_or numbers.new k 0 ≤ slice_index_or numbers.old k 0 }
    ensures here { slice_index_or numbers.new index 0 ≤ most }
{
    numbers[index] = numbers[index].min(most);
}

// Raises a number to another one if that is greater.
fn raise(numbers: &mut [u32], index: usize, least: u32)
    requires { index < length numbers.old }
    ensures len { length numbers.new ≡ length numbers.old }
    ensures more { (k : ℕ) → slice_index_or numbers.old k 0 ≤ slice_index_or numbers.new k 0 }
    ensures here { least ≤ slice_index_or numbers.new index 0 }
{
    numbers[index] = numbers[index].max(least);
}

// For each run of 64 numbers a lower bound. The error is out of memory.
fn near_lows(alloc: Global, numbers: &[u32]) -> Result<Vec<u32>, AllocError>
    ensures { IfOk result (λ lows. (k : ℕ) → k < length numbers.now → slice_index_or lows.items (k / 64) 0 ≤ slice_index_or numbers.now k 0) }
{
    let mut lows = vec![in alloc; u32::MAX; numbers.len() / NEAR + 1]?;
    for place in 0..numbers.len() {
        lower(&mut lows, place / NEAR, numbers[place]);
    }
    Ok(lows)
}

// The same for runs of 4096.
fn far_lows(alloc: Global, numbers: &[u32]) -> Result<Vec<u32>, AllocError>
    ensures { IfOk result (λ lows. (k : ℕ) → k < length numbers.now → slice_index_or lows.items (k / 4096) 0 ≤ slice_index_or numbers.now k 0) }
{
    let mut lows = vec![in alloc; u32::MAX; numbers.len() / FAR + 1]?;
    for place in 0..numbers.len() {
        lower(&mut lows, place / FAR, numbers[place]);
    }
    Ok(lows)
}

// For each run of 64 numbers an upper bound. The error is out of memory.
fn near_highs(alloc: Global, numbers: &[u32]) -> Result<Vec<u32>, AllocError>
    ensures { IfOk result (λ highs. (k : ℕ) → k < length numbers.now → slice_index_or numbers.now k 0 ≤ slice_index_or highs.items (k / 64) 0) }
{
    let mut highs = vec![in alloc; 0; numbers.len() / NEAR + 1]?;
    for place in 0..numbers.len() {
        raise(&mut highs, place / NEAR, numbers[place]);
    }
    Ok(highs)
}

// The same for runs of 4096.
fn far_highs(alloc: Global, numbers: &[u32]) -> Result<Vec<u32>, AllocError>
    ensures { IfOk result (λ highs. (k : ℕ) → k < length numbers.now → slice_index_or numbers.now k 0 ≤ slice_index_or highs.items (k / 4096) 0) }
{
    let mut highs = vec![in alloc; 0; numbers.len() / FAR + 1]?;
    for place in 0..numbers.len() {
        raise(&mut highs, place / FAR, numbers[place]);
    }
    Ok(highs)
}

/// The runs of a list of numbers. The error is out of memory.
pub(crate) fn runs_of(alloc: Global, numbers: &[u32]) -> Result<Runs, AllocError>
    ensures { IfOk result (λ runs. AreRuns numbers.now runs) }
{
    let lows = near_lows(alloc, numbers)?;
    let highs = near_highs(alloc, numbers)?;
    let far_lows = far_lows(alloc, numbers)?;
    let far_highs = far_highs(alloc, numbers)?;
    Ok(Runs {
        lows,
        highs,
        far_lows,
        far_highs,
    })
}

/// Whether no number of a run is in a range.
pub(crate) fn is_outside(lows: &[u32], highs: &[u32], index: usize, from: usize, end: usize) -> bool
    ensures { IsTrue result → (x : ℕ) → slice_index_or lows.now index 0 ≤ x → x ≤ slice_index_or highs.now index 0 → from ≤ x → x < end → ⊥ }
{
    let Some(low) = lows.get(index) else {
        return false;
    };
    let Some(high) = highs.get(index) else {
        return false;
    };
    end <= *low as usize || (*high as usize) < from
}

// Whether all numbers of a run are in a range.
fn is_inside(lows: &[u32], highs: &[u32], index: usize, from: usize, end: usize) -> bool
    ensures { IsTrue result → (x : ℕ) → slice_index_or lows.now index 0 ≤ x → x ≤ slice_index_or highs.now index 0 → (from ≤ x) × (x < end) }
{
    let Some(low) = lows.get(index) else {
        return false;
    };
    let Some(high) = highs.get(index) else {
        return false;
    };
    from <= *low as usize && (*high as usize) < end
}

/// The number of numbers from an index on that are known in one step not to be in a range.
pub(crate) fn count_outside(
    numbers: &[u32],
    runs: &Runs,
    place: usize,
    from: usize,
    end: usize,
) -> usize
    requires { AreRuns numbers.now runs.now }
    ensures few { result ≤ 4096 }
    ensures outside { (k : ℕ) → place ≤ k → k < place + result → k < length numbers.now → from ≤ slice_index_or numbers.now k 0 → slice_index_or numbers.now k 0 < end → ⊥ }
    ensures here { result ≡ 0 → place < length numbers.now → (from ≤ slice_index_or numbers.now place 0) × (slice_index_or numbers.now place 0 < end) }
{
    if place % FAR == 0 && is_outside(&runs.far_lows, &runs.far_highs, place / FAR, from, end) {
        return FAR;
    }
    if place % NEAR == 0 && is_outside(&runs.lows, &runs.highs, place / NEAR, from, end) {
        return NEAR;
    }
    match numbers.get(place) {
        Some(number) => {
            if from <= *number as usize && (*number as usize) < end {
                0
            } else {
                1
            }
        }
        None => 1,
    }
}

/// The number of numbers known to be in a range.
pub(crate) fn count_inside(
    numbers: &[u32],
    runs: &Runs,
    place: usize,
    from: usize,
    end: usize,
) -> usize
    requires { AreRuns numbers.now runs.now }
    ensures few { result ≤ 4096 }
    ensures inside { (k : ℕ) → place ≤ k → k < place + result → k < length numbers.now → (from ≤ slice_index_or numbers.now k 0) × (slice_index_or numbers.now k 0 < end) }
    ensures here { result ≡ 0 → place < length numbers.now → from ≤ slice_index_or numbers.now place 0 → slice_index_or numbers.now place 0 < end → ⊥ }
{
    if place % FAR == 0 && is_inside(&runs.far_lows, &runs.far_highs, place / FAR, from, end) {
        return FAR;
    }
    if place % NEAR == 0 && is_inside(&runs.lows, &runs.highs, place / NEAR, from, end) {
        return NEAR;
    }
    match numbers.get(place) {
        Some(number) => {
            if from <= *number as usize && (*number as usize) < end {
                1
            } else {
                0
            }
        }
        None => 0,
    }
}
