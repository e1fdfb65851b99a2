// Where a value is in scope.

use spirv_words::{Failure, as_word, number_at, set_number};
use std::alloc::Global;

// A scope.
#[derive(Clone, Copy)]
struct Scope {
    // the number after the last one inside it
    end: u32,
    // the one around it and one, or 0
    outer: u32,
}

/// The scopes of all functions, numbered as they are opened, so that those inside a scope have the numbers after its own.
#[derive(Drop)]
pub struct Scopes {
    scopes: Vec<Scope>,
    // for each block its scope and one, or 0
    of_block: Vec<u32>,
    // the innermost that is open and one, or 0
    innermost: u32,
}

impl Scopes {
    /// None.
    pub fn new(alloc: Global, blocks: usize, failed: &mut Failure) -> Scopes {
        let of_block = failed.table(alloc, 0u32, blocks);
        Scopes {
            scopes: Vec::new(alloc),
            of_block,
            innermost: 0,
        }
    }

    /// Opens one inside the innermost that is open.
    pub fn open(&mut self, failed: &mut Failure) {
        let scope = Scope {
            end: u32::MAX,
            outer: self.innermost,
        };
        failed.push(&mut self.scopes, scope);
        self.innermost = as_word(self.scopes.len());
    }

    /// Closes the innermost.
    pub fn close(&mut self) {
        let end = as_word(self.scopes.len());
        let innermost = self.innermost.saturating_sub(1);
        if let Some(scope) = self.scopes.get_mut(innermost as usize) {
            scope.end = end;
            self.innermost = scope.outer;
        }
    }

    /// The block stands in the innermost.
    pub fn enter(&mut self, block: u32) {
        set_number(&mut self.of_block, block, self.innermost);
    }

    /// The scope of a block, if it is walked.
    pub fn of_block(&self, block: u32) -> Option<u32> {
        number_at(&self.of_block, block).checked_sub(1)
    }

    /// Whether what is in scope in the one is so in the other.
    pub fn reaches(&self, outer: u32, inner: u32) -> bool {
        match self.scopes.get(outer as usize) {
            Some(scope) => outer <= inner && inner < scope.end,
            None => false,
        }
    }
}
