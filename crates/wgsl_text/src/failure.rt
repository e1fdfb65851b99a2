// The first error.
ghost use Rattle.std.specs.Prelude.{◌≡◌, IfOk, MatchResult, None, Some};

use crate::error::WgslError;
use std::alloc::Global;

/// The first error, if any. What is built after it is discarded.
#[derive(Clone, Copy)]
pub struct Failure {
    /// The error.
    pub first: Option<WgslError>,
}

impl Failure {
    /// No error yet.
    pub const NONE: Failure = Failure { first: None };

    /// Whether there was an error.
    pub fn is_some(&self) -> bool {
        self.first.is_some()
    }

    /// Records an error, unless there was one before.
    pub fn fail(&mut self, error: WgslError) {
        if self.first.is_none() {
            self.first = Some(error);
        }
    }

    /// Records that it is out of memory.
    pub fn fail_memory(&mut self) {
        self.fail(WgslError::MEMORY);
    }

    /// Appends an item to a list.
    pub fn push<T: Drop>(&mut self, list: &mut Vec<T>, item: T) {
        if list.push(item).is_err() {
            self.fail_memory();
        }
    }

    /// An empty list with this capacity.
    pub fn list<T: Drop>(&mut self, alloc: Global, count: usize) -> Vec<T> {
        match Vec::with_capacity(alloc, count) {
            Ok(list) => list,
            Err(_) => {
                self.fail_memory();
                Vec::new(alloc)
            }
        }
    }

    /// A table of `count` copies of an item; empty if out of memory.
    pub fn table<T: Clone + Drop>(&mut self, alloc: Global, item: T, count: usize) -> Vec<T> {
        match vec![in alloc; item; count] {
            Ok(table) => table,
            Err(_) => {
                self.fail_memory();
                Vec::new(alloc)
            }
        }
    }

    /// The result, unless there was an error.
    pub fn answer<T: Drop>(&self, made: T) -> Result<T, WgslError>
        ensures kept { IfOk result (λ kept. kept ≡ made) }
        ensures told { MatchResult result (λ _. self.now.first ≡ None) (λ e. self.now.first ≡ Some e) }
    {
        match self.first {
            None => Ok(made),
            Some(error) => {
                drop(made);
                Err(error)
            }
        }
    }
}
