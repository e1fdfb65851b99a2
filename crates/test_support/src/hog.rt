//! Allocates all memory, so that none or only a little is free.

use crate::call::freeing;
use std::alloc::{AllocError, Global};

const MOST_BLOCKS: usize = 1 << 17;

const GREATEST: usize = 1 << 46;

/// The bytes that [`Hog::new`] leaves free, for the values of tests.
const NEAR: usize = 1 << 23;

const SMALL: usize = 2048;

/// Holds all memory but some megabytes, and on request all but a little of these.
#[derive(Drop)]
pub struct Hog {
    far: Vec<Vec<u8>>,
    near: Vec<Vec<u8>>,
}

impl Hog {
    /// Allocates all memory but some megabytes: thousands of the largest blocks of the system, which takes tenths of a second,
    /// so once for all uses. `None` if the smallest block could still be allocated at the end.
    pub fn new(alloc: Global) -> Result<Option<Hog>, AllocError> {
        let mut hog = Hog {
            far: Vec::new(alloc),
            near: Vec::new(alloc),
        };
        match hog.begin(alloc) {
            Ok(true) => Ok(Some(hog)),
            Ok(false) => {
                drop(hog);
                Ok(None)
            }
            Err(error) => {
                drop(hog);
                Err(error)
            }
        }
    }

    // Allocates room for the blocks, and then all but some megabytes. Returns whether the smallest block failed in the end.
    fn begin(&mut self, alloc: Global) -> Result<bool, AllocError> {
        self.far.reserve(MOST_BLOCKS)?;
        self.near.reserve(MOST_BLOCKS)?;
        let spare: Vec<u8> = Vec::with_capacity(alloc, NEAR)?;
        Ok(freeing(fill(alloc, &mut self.far, GREATEST), spare))
    }

    /// Allocates what is free but this many bytes. Returns whether the smallest block failed in the end.
    pub fn leave(&mut self, alloc: Global, room: usize) -> Result<bool, AllocError> {
        let spare: Vec<u8> = Vec::with_capacity(alloc, room)?;
        Ok(freeing(fill(alloc, &mut self.near, NEAR), spare))
    }

    /// Allocates what is free, frees `most` bytes of it, and allocates these again but this many. The rest is then the
    /// remainder of a larger block, which the C library splits on demand. Returns the same as [`Hog::leave`].
    pub fn leave_of(
        &mut self,
        alloc: Global,
        most: usize,
        room: usize,
    ) -> Result<bool, AllocError> {
        let filled = self.leave(alloc, most)?;
        let plug = Vec::with_capacity(alloc, most.saturating_sub(room))?;
        Ok(filled && self.near.push(plug).is_ok())
    }

    /// Frees what was allocated since [`Hog::new`].
    pub fn release(&mut self) {
        self.near.clear();
    }
}

// Allocates all that is free, the largest blocks first. Returns whether the smallest block failed in the end.
fn fill(alloc: Global, blocks: &mut Vec<Vec<u8>>, greatest: usize) -> bool {
    let mut size = greatest;
    for _ in 0..MOST_BLOCKS {
        match take(alloc, blocks, size) {
            Some(true) => {}
            Some(false) => return false,
            None => match smaller(size) {
                Some(next) => size = next,
                None => return true,
            },
        }
    }
    false
}

// Allocates a block of this size, and returns whether it was kept; `None` if the allocation failed.
fn take(alloc: Global, blocks: &mut Vec<Vec<u8>>, size: usize) -> Option<bool> {
    match Vec::with_capacity(alloc, size) {
        Ok(block) => Some(blocks.push(block).is_ok()),
        Err(_) => None,
    }
}

// The size to try after this one failed, or `None` after the smallest. The C library keeps freed blocks by size: each is a call
// of its own.
fn smaller(size: usize) -> Option<usize> {
    if size > SMALL {
        Some(size / 2)
    } else if size > 8 {
        Some(size.saturating_sub(8))
    } else {
        None
    }
}

/// A call that is made with little memory, and with a little more each time.
pub trait Trial {
    /// Builds the inputs of the call while there is memory; by default none.
    fn begin(&mut self, _alloc: Global) -> Result<(), AllocError> {
        Ok(())
    }

    /// Makes the call. Returns whether an allocation failed.
    fn is_refused(&mut self, alloc: Global) -> bool;

    /// Whether nothing changed if the call failed, and the result is as expected if it did not.
    fn is_right(&mut self, refused: bool) -> bool;
}

/// The free memory at each step.
#[derive(Clone, Copy)]
pub struct Steps {
    /// The maximum number of steps.
    pub most: usize,
    /// The bytes added at each step.
    pub more: usize,
    /// The size of the block that these bytes are left of, or 0 for all memory.
    pub spare: usize,
}

// Allocates all memory but this much.
fn leave(alloc: Global, hog: &mut Hog, spare: usize, room: usize) -> Result<bool, AllocError> {
    if spare == 0 {
        hog.leave(alloc, room)
    } else {
        hog.leave_of(alloc, spare, room)
    }
}

// Makes a call with this much memory. Returns whether an allocation failed, or `None` if the result is unexpected.
fn tried<T: Trial>(
    alloc: Global,
    hog: &mut Hog,
    spare: usize,
    room: usize,
    trial: &mut T,
) -> Result<Option<bool>, AllocError> {
    trial.begin(alloc)?;
    let is_full = leave(alloc, hog, spare, room)?;
    let refused = trial.is_refused(alloc);
    hog.release();
    Ok(if is_full && trial.is_right(refused) {
        Some(refused)
    } else {
        None
    })
}

// Whether a call fails at more steps than these before it succeeds.
fn counted<T: Trial>(
    alloc: Global,
    hog: &mut Hog,
    least: usize,
    steps: Steps,
    trial: &mut T,
) -> Result<Option<bool>, AllocError> {
    for step in 0..steps.most {
        match tried(
            alloc,
            hog,
            steps.spare,
            step.saturating_mul(steps.more),
            trial,
        )? {
            Some(true) => {}
            Some(false) => return Ok(Some(step > least)),
            None => return Ok(None),
        }
    }
    Ok(None)
}

/// Whether a call fails at more steps than these before it succeeds. `None` if the result is unexpected, or no step leaves
/// enough.
pub fn is_refused_more_than<T: Trial>(
    alloc: Global,
    least: usize,
    steps: Steps,
    trial: &mut T,
) -> Result<Option<bool>, AllocError> {
    match Hog::new(alloc)? {
        Some(mut hog) => freeing(counted(alloc, &mut hog, least, steps, trial), hog),
        None => Ok(None),
    }
}

/// Whether a call fails without free memory. `None` if the result is unexpected.
pub fn is_refused_all<T: Trial>(alloc: Global, trial: &mut T) -> Result<Option<bool>, AllocError> {
    match Hog::new(alloc)? {
        Some(mut hog) => freeing(tried(alloc, &mut hog, 0, 0, trial), hog),
        None => Ok(None),
    }
}
