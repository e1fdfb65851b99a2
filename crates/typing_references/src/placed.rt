//! A search of statements that also returns the matching statement's path.

ghost use Rattle.std.specs.Prelude.{◌≡◌, None, Some};
ghost use Rattle.std.specs.Option.{MatchOption};
ghost use Rattle.ir_blocks.specs.judged.Places.{Place, OccursAt};
ghost use Rattle.ir_blocks.specs.judged.Plain.{PlainStatement};
ghost use Rattle.ir_blocks.specs.found.View.{block_view};
ghost use Rattle.ir_places.specs.Paths.{IsPlaced};

use crate::walk::StatementLook;
use ir_items::{Block, Statement};
use ir_places::{StatementRule, Trail, check_each};

// The statement has no match.
#[derive(Drop)]
struct Nothing<'a, T> {
    looked: &'a T,
}

impl<'a, F, T: StatementLook<F>> StatementRule<F> for Nothing<'a, T> {
    ghost use Rattle.std.specs.Prelude.{◌≡◌, None, Some};

    ghost fits = { λ t. Unit {0} };

    ghost meets = { λ t s. T.look t.looked.now s ≡ None };

    ghost wrong = { λ t found s. T.look t.looked.now s ≡ Some found };

    fn check(&self, statement: &Statement) -> Result<(), F> {
        match self.looked.look(statement) {
            Some(found) => Err(found),
            None => Ok(()),
        }
    }
}

/// The first match in a block, at any depth, and the path of the statement that has it; [`crate::first_in`] returns
/// no path.
pub fn placed_in<F, T: StatementLook<F>>(trail: &mut Trail, looked: &T, block: &Block) -> Option<F>
    ensures { MatchOption result
        ((p : Place) (s : PlainStatement) → OccursAt (block_view block.now) p s → T.look looked.now s ≡ None)
        (λ found. IsPlaced trail.new (λ p. (s : PlainStatement) × OccursAt (block_view block.now) p s × (T.look looked.now s ≡ Some found))) }
{
    let rule = Nothing { looked };
    match check_each(trail, &rule, block) {
        Ok(()) => None,
        Err(found) => Some(found),
    }
}
