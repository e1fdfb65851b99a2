//! The path in a document of a position in a body.

ghost use Rattle.std.specs.Prelude.{◌≡◌, ◌∷◌, [], ◌++◌, IfOk, OnOk};
ghost use Rattle.check_paths.specs.Json.{PathsLead, part_path, step_path, path_along, last_path, json_path};

use ir_places::{Part, Step, Trail};
use std::alloc::AllocError;

// Appends the path from a statement's array to the statements of one of its blocks.
fn push_part(path: &mut Vec<usize>, part: Part) -> Result<(), AllocError>
    ensures { OnOk result (path.new.items ≡ path.old.items ++ part_path part) }
{
    match part {
        Part::Inner | Part::LoopBody => path.push(1)?,
        Part::Accepting | Part::LoopContinuing => path.push(2)?,
        Part::Rejecting => path.push(3)?,
        Part::Case(number) => {
            path.push(2)?;
            path.push(number)?;
            path.push(1)?;
        }
    }
    Ok(())
}

// Appends a step to a path.
fn push_step(path: &mut Vec<usize>, step: &Step) -> Result<(), AllocError>
    ensures { OnOk result (path.new.items ≡ path.old.items ++ step_path step.now) }
{
    path.push(step.index)?;
    push_part(path, step.part)
}

// Appends the index of a statement to a path, and that of its `break_if` condition if that is meant.
fn push_last(path: &mut Vec<usize>, index: usize, condition: bool) -> Result<(), AllocError>
    ensures { OnOk result (path.new.items ≡ path.old.items ++ index ∷ last_path condition) }
{
    path.push(index)?;
    if condition {
        path.push(3)?;
    }
    Ok(())
}

// Appends steps, in reverse order, to a path. The error is out of memory.
fn push_steps(path: &mut Vec<usize>, steps: &[Step]) -> Result<(), AllocError>
    ensures { OnOk result (path.new.items ≡ path.old.items ++ path_along steps.now []) }
{
    let mut left = steps.len();
    while left > 0 {
        left -= 1;
        push_step(path, &steps[left])?;
    }
    Ok(())
}

/// Appends the path of a trail to the path of the array of a body's statements.
///
/// # Errors
///
/// Out of memory; part of the path may be appended.
#[tactic(auto, using(crate::proofs::Leads::whole))]
pub fn json_path(path: &mut Vec<usize>, trail: &Trail) -> Result<(), AllocError>
    ensures { OnOk result (path.new.items ≡ path.old.items ++ json_path trail.now) }
{
    push_steps(path, trail.steps())?;
    push_last(path, trail.index(), trail.is_condition())
}

/// In the array of a body, the path of a trail leads to the array of the statement there.
pub fn paths_lead()
    ensures { PathsLead }
{}
