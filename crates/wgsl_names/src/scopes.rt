// Scopes with an undo list.

use std::alloc::Global;
use wgsl_text::Failure;
use wgsl_tree::StepKind;

// The meaning of a name, and the scope that declares it.
#[derive(Clone, Copy)]
struct Known<T: Copy> {
    value: Option<T>,
    depth: u32,
}

// A name with the meaning that the innermost scope shadows.
#[derive(Clone, Copy)]
struct Undo<T: Copy> {
    name: u32,
    before: Known<T>,
}

/// The names that a function declares, by identifier number.
pub struct Scopes<T: Copy> {
    known: Vec<Known<T>>,
    undo: Vec<Undo<T>>,
    // the number of declarations before each open scope
    starts: Vec<usize>,
}

// Written out, so that dropping it is one call of this crate.
impl<T: Copy> Drop for Scopes<T> {
    fn drop(self) {
        let Scopes {
            known: _known,
            undo: _undo,
            starts: _starts,
        } = self;
    }
}

impl<T: Copy> Scopes<T> {
    /// No names yet, for this number of identifiers.
    pub fn new(alloc: Global, words: usize, failed: &mut Failure) -> Scopes<T> {
        let nothing = Known {
            value: None,
            depth: 0,
        };
        let mut known = failed.list(alloc, words);
        for _ in 0..words {
            failed.push(&mut known, nothing);
        }
        Scopes {
            known,
            undo: Vec::new(alloc),
            starts: Vec::new(alloc),
        }
    }

    /// The meaning of a name, if a function declares it.
    pub fn get(&self, name: u32) -> Option<T> {
        match self.known.get(name as usize) {
            Some(known) => known.value,
            None => None,
        }
    }

    // The number of open scopes.
    fn depth(&self) -> u32 {
        u32::try_from(self.starts.len()).unwrap_or(u32::MAX)
    }

    /// Opens a scope.
    pub fn enter(&mut self, failed: &mut Failure) {
        let count = self.undo.len();
        failed.push(&mut self.starts, count);
    }

    /// Closes the innermost scope, and restores what it shadows.
    pub fn leave(&mut self) {
        let start = self.starts.pop().unwrap_or(0);
        for _ in start..self.undo.len() {
            let Some(undo) = self.undo.pop() else {
                break;
            };
            if let Some(known) = self.known.get_mut(undo.name as usize) {
                *known = undo.before;
            }
        }
    }

    /// Declares a name in the innermost scope. Returns false on a redefinition.
    pub fn set(&mut self, name: u32, value: T, failed: &mut Failure) -> bool {
        let depth = self.depth();
        let Some(before) = self.known.get(name as usize).copied() else {
            return true;
        };
        failed.push(&mut self.undo, Undo { name, before });
        if let Some(known) = self.known.get_mut(name as usize) {
            *known = Known {
                value: Some(value),
                depth,
            };
        }
        before.value.is_none() || before.depth != depth
    }

    /// Opens and closes scopes as a step of a body requires.
    pub fn follow(&mut self, kind: StepKind, failed: &mut Failure) {
        match kind {
            StepKind::Block
            | StepKind::If
            | StepKind::Loop
            | StepKind::WhileTest
            | StepKind::For
            | StepKind::ForTest(_)
            | StepKind::Switch
            | StepKind::CaseBody => self.enter(failed),
            StepKind::Else => {
                self.leave();
                self.enter(failed);
            }
            StepKind::ForUpdate | StepKind::End => self.leave(),
            _ => {}
        }
    }
}
