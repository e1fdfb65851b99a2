//! The uniformity of each expression of a function.

ghost use Rattle.std.specs.Prelude.{◌≡◌, map, IfOk};
ghost use Rattle.ir_arena.specs.judged.Handles.{handles_from};
ghost use Rattle.spec_expressions.specs.judged.Values.{known_at};
ghost use Rattle.typing_uniformity.specs.Reported.{told, all_reported};

use crate::requirements::requirements_of;
use ir_arena::handle::Handle;
use ir_items::Function;
use ir_types::key;
use spec_expressions::Uniformity;
use std::alloc::{AllocError, Global};

fn source_at(
    sources: &[Option<Handle<key::Expression>>],
    handle: Handle<key::Expression>,
) -> Option<Handle<key::Expression>>
    ensures { result ≡ known_at sources.now handle }
{
    match sources.get(handle.index()) {
        Some(source) => *source,
        None => None,
    }
}

/// The uniformity of each expression of a function, in order: its source of non-uniformity, given by `sources`, and its
/// requirements. The error is out of memory.
pub(crate) fn uniformities_of(
    alloc: Global,
    function: &Function,
    sources: &[Option<Handle<key::Expression>>],
) -> Result<Vec<Uniformity>, AllocError>
    ensures { IfOk result (λ all. map told all.items ≡ all_reported sources.now (handles_from 0 function.now.expressions)) }
{
    let mut all = Vec::with_capacity(alloc, function.expressions.len())?;
    for (handle, expression) in function.expressions.iter() {
        let non_uniform_result = source_at(sources, handle);
        let requirements = requirements_of(expression);
        all.push(Uniformity {
            non_uniform_result,
            requirements,
        })?;
    }
    Ok(all)
}
