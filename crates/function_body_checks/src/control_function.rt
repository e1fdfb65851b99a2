//! How the statements of a function leave their blocks.

ghost use Rattle.std.specs.Prelude.{◌≡◌, MatchResult};
ghost use Rattle.ir_blocks.specs.judged.Control.{ControlOK};
ghost use Rattle.ir_blocks.specs.found.View.{block_view};
ghost use Rattle.ir_places.specs.Paths.{IsPlaced};
ghost use Rattle.function_body_checks.specs.Allowed.{error_of};
ghost use Rattle.function_body_checks.specs.ControlFaults.{IsControlFaultAt};

use crate::allowed::{Allowed, Wrong};
use crate::control::check_block;
use ir_items::Block;
use ir_places::Trail;
use typing_errors::FunctionError;

// The error of a statement that leaves its block in this way.
fn error_of(wrong: Wrong) -> FunctionError
    ensures { result ≡ error_of wrong }
{
    match wrong {
        Wrong::Break => FunctionError::BreakOutsideOfLoopOrSwitch,
        Wrong::Continue => FunctionError::ContinueOutsideOfLoop,
        Wrong::Return => FunctionError::InvalidReturnSpot,
    }
}

/// Whether each statement of a function's body that leaves its block may do so where it occurs (naga's `ControlFlowAbility`).
///
/// # Errors
///
/// For a statement that may not, at the place of the trail (the first in text order, which no clause states):
/// [`FunctionError::BreakOutsideOfLoopOrSwitch`], [`FunctionError::ContinueOutsideOfLoop`], or
/// [`FunctionError::InvalidReturnSpot`] in a continuing part.
#[tactic(auto, using(crate::proofs::ControlPlaces::control_fine))]
pub fn check_control(trail: &mut Trail, body: &Block) -> Result<(), FunctionError>
    ensures { MatchResult result (λ _. ControlOK (block_view body.now)) (λ e. IsPlaced trail.new (IsControlFaultAt (block_view body.now) e)) }
{
    match check_block(trail, Allowed::BODY, body) {
        Ok(()) => Ok(()),
        Err(wrong) => Err(error_of(wrong)),
    }
}
