//! Copies of labelled spans.

ghost use Rattle.std.specs.Prelude.{◌≡◌, [], map, IsOk, IfOk};
ghost use Rattle.ir_types.specs.found.Faults.{context_of};

use crate::with_span::SpanContext;
use std::alloc::{AllocError, Global};

// The same labelled spans in memory of their own. The error is out of memory.
pub(crate) fn copy_contexts(
    alloc: Global,
    contexts: &[SpanContext],
) -> Result<Vec<SpanContext>, AllocError>
    ensures contexts { IfOk result (λ copy. map context_of copy.items ≡ map context_of contexts.now) }
    ensures succeeds { contexts.now ≡ [] → IsOk result }
{
    let mut copy = Vec::with_capacity(alloc, contexts.len())?;
    for context in contexts {
        copy.push((context.0, String::from_str(alloc, &context.1)?))?;
    }
    Ok(copy)
}
