// Switches, and in which order their cases stand.

use crate::steps::{Case, CaseBody, Choice};

/// More than one target.
pub const SEVERAL: u32 = u32::MAX;

/// A block that a switch goes to.
#[derive(Clone, Copy)]
pub struct Target {
    /// The block.
    pub block: u32,
    /// The step that its body begins with.
    pub start: u32,
    /// The target that it goes on with, or [`SEVERAL`].
    pub falls: Option<u32>,
}

impl Target {
    /// No target.
    pub const NONE: Target = Target {
        block: 0,
        start: 0,
        falls: None,
    };
}

/// A switch that is not ended. Targets are counted through those of all such switches.
#[derive(Clone, Copy)]
pub struct Switch {
    /// The loop around it.
    pub looping: u32,
    /// Whether it is left together with that loop.
    pub leaves: bool,
    /// The block at whose end it stands.
    pub block: u32,
    /// The first word of that end.
    pub word: u32,
    /// The step that is kept for it.
    pub step: u32,
    /// The block where it merges.
    pub merge: u32,
    /// Its first target.
    pub targets: u32,
    /// Its first choice.
    pub choices: usize,
    /// The target that is chosen where no word is.
    pub default: u32,
    /// The target before which that one is listed, where no word chooses it; else the greatest.
    pub listed: u32,
    /// The target that comes next.
    pub next: u32,
}

impl Switch {
    /// No switch.
    pub const NONE: Switch = Switch {
        looping: 0,
        leaves: false,
        block: 0,
        word: 0,
        step: 0,
        merge: 0,
        targets: 0,
        choices: 0,
        default: 0,
        listed: u32::MAX,
        next: 0,
    };

    /// The target that is listed at this place.
    pub fn target_at(&self, place: u32) -> u32 {
        if place < self.listed {
            place
        } else if place == self.listed {
            self.default
        } else {
            place.saturating_sub(1)
        }
    }
}

/// A case that does nothing and goes on with the next one.
pub fn empty_case(choice: Choice) -> Case {
    Case {
        choice,
        body: CaseBody::Empty,
        falls_through: true,
    }
}
