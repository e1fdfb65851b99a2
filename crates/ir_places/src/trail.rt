//! The path to a place in a body, recorded upon an error.

ghost use Rattle.std.specs.Prelude.{◌≡◌, false, true};
ghost use Rattle.ir_blocks.specs.judged.Places.{here, condition};
ghost use Rattle.ir_places.specs.Paths.{last_place, later_by, place_of, stepped};

use crate::step::Step;
use std::alloc::Global;

/// The place in a body of the error that a walk returns: the steps to a block, the last of them first, the index of the statement
/// in that block, and whether the place is the statement's condition. It is recorded only upon an error, and is lost on out of
/// memory for a step; the walk returns the error all the same.
#[derive(Clone, PartialEq, Debug, Drop)]
pub struct Trail {
    steps: Vec<Step>,
    index: usize,
    condition: bool,
    lost: bool,
}

impl Trail {
    /// An empty trail, which is lost until a place is recorded. It allocates nothing.
    pub fn new(alloc: Global) -> Trail
        ensures { result.lost ≡ true }
    {
        Trail {
            steps: Vec::new(alloc),
            index: 0,
            condition: false,
            lost: true,
        }
    }

    // Starts again at the statement of a body at an index, or at its condition.
    fn begin(&mut self, index: usize, condition: bool)
        ensures lost { self.new.lost ≡ false }
        ensures place { place_of self.new ≡ later_by index (last_place condition) }
    {
        self.steps.clear();
        self.index = index;
        self.condition = condition;
        self.lost = false;
    }

    /// The error is at the statement of a body at an index.
    pub fn stand(&mut self, index: usize)
        ensures lost { self.new.lost ≡ false }
        ensures place { place_of self.new ≡ later_by index here }
    {
        self.begin(index, false);
    }

    /// The error is at the condition of the loop of a body at an index.
    pub fn stand_at_condition(&mut self, index: usize)
        ensures lost { self.new.lost ≡ false }
        ensures place { place_of self.new ≡ later_by index condition }
    {
        self.begin(index, true);
    }

    /// Adds a step at the front: the path is now relative to the enclosing block.
    #[tactic(auto, using(crate::proofs::TrailLaws::one_more))]
    pub fn inside(&mut self, step: Step)
        ensures { self.new.lost ≡ false → (self.old.lost ≡ false) × (place_of self.new ≡ stepped step (place_of self.old)) }
    {
        match self.steps.push(step) {
            Ok(()) => {}
            Err(_) => self.lost = true,
        }
    }

    /// The steps, the last of them first.
    pub fn steps(&self) -> &[Step]
        ensures { result.now ≡ self.now.steps.items }
    {
        &self.steps
    }

    /// The index of the statement in the block that the steps lead to, from 0.
    pub fn index(&self) -> usize
        ensures { result ≡ self.now.index }
    {
        self.index
    }

    /// Whether the place is the statement's condition.
    pub fn is_condition(&self) -> bool
        ensures { result ≡ self.now.condition }
    {
        self.condition
    }

    /// Whether the trail has no place: no error in a body was recorded, or memory for a step ran out.
    pub fn is_lost(&self) -> bool
        ensures { result ≡ self.now.lost }
    {
        self.lost
    }
}
