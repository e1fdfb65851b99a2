//! The arguments among sampled pairs.

ghost use Rattle.std.specs.Prelude.{◌≡◌, IfOk, OnOk};
ghost use Rattle.typing_infos.specs.Marks.{marked_at, marked_part, marked_pair, marks_of};

use spec_expressions::{GlobalOrArgument, SamplingPair};
use std::alloc::{AllocError, Global};

// Sets the mark at an index, extending the list as needed. The error is out of memory.
#[tactic(auto, using(crate::proofs::MarkLemmas::one_place_more, crate::proofs::MarkLemmas::set_there))]
fn mark(marks: &mut Vec<bool>, place: usize) -> Result<(), AllocError>
    ensures { OnOk result (marks.new.items ≡ marked_at marks.old.items place) }
{
    while marks.len() <= place {
        marks.push(false)?;
    }
    marks[place] = true;
    Ok(())
}

fn mark_part(marks: &mut Vec<bool>, part: GlobalOrArgument) -> Result<(), AllocError>
    ensures { OnOk result (marks.new.items ≡ marked_part marks.old.items part) }
{
    match part {
        GlobalOrArgument::Global(_) => Ok(()),
        GlobalOrArgument::Argument(number) => mark(marks, number as usize),
    }
}

fn mark_pair(marks: &mut Vec<bool>, pair: SamplingPair) -> Result<(), AllocError>
    ensures { OnOk result (marks.new.items ≡ marked_pair marks.old.items pair) }
{
    mark_part(marks, pair.0)?;
    mark_part(marks, pair.1)
}

// For each argument whether a pair contains it, up to the last one contained. The error is out of memory.
pub(crate) fn marks_of(alloc: Global, pairs: &[SamplingPair]) -> Result<Vec<bool>, AllocError>
    ensures { IfOk result (λ marks. marks.items ≡ marks_of pairs.now) }
{
    let mut marks = Vec::new(alloc);
    for pair in pairs {
        mark_pair(&mut marks, *pair)?;
    }
    Ok(marks)
}
