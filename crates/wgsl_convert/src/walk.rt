// Post-order traversal of a constant's components.

use std::alloc::Global;
use wgsl_constants::Store;
use wgsl_text::Failure;
use wgsl_tree::Part;
use wgsl_types::Shape;

// A pending task: to enter the constant at an index, or to leave a composite of a type with this many components.
#[derive(Clone, Copy)]
pub(crate) enum Task {
    Enter(u32),
    Leave(Shape, u32),
}

// The pending tasks, with the next one last, and the results not consumed yet.
#[derive(Drop)]
pub(crate) struct Walk {
    pub alloc: Global,
    tasks: Vec<Task>,
    made: Vec<u32>,
    pub failed: Failure,
}

impl Walk {
    // Starts at the constant at an index.
    pub(crate) fn new(alloc: Global, place: u32) -> Walk {
        let mut tasks = Vec::new(alloc);
        let mut failed = Failure::NONE;
        failed.push(&mut tasks, Task::Enter(place));
        Walk {
            alloc,
            tasks,
            made: Vec::new(alloc),
            failed,
        }
    }

    // The next task.
    pub(crate) fn next(&mut self) -> Option<Task> {
        self.tasks.pop()
    }

    // Schedules the components of a composite in order, and then its completion.
    pub(crate) fn enter(&mut self, store: &Store, shape: Shape, part: Part) {
        self.failed
            .push(&mut self.tasks, Task::Leave(shape, part.count()));
        for before_last in 0..part.count() {
            let at = part.end.saturating_sub(before_last).saturating_sub(1);
            self.failed
                .push(&mut self.tasks, Task::Enter(store.part(at)));
        }
    }

    // Pushes a result.
    pub(crate) fn push(&mut self, made: u32) {
        self.failed.push(&mut self.made, made);
    }

    // The last results, in order.
    pub(crate) fn last(&mut self, count: u32) -> Vec<u32> {
        let mut taken = Vec::new(self.alloc);
        let start = self.made.len().saturating_sub(count as usize);
        for place in start..self.made.len() {
            let made = self.made.get(place).copied().unwrap_or(0);
            self.failed.push(&mut taken, made);
        }
        self.made.truncate(start);
        taken
    }

    // The result of the traversal.
    pub(crate) fn end(&self) -> u32 {
        self.made.last().copied().unwrap_or(0)
    }
}
