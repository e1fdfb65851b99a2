//! For each expression, the first one from it on that requires uniform control flow.

ghost use Rattle.std.specs.Prelude.{◌≡◌, IfOk, length, slice_get};
ghost use Rattle.typing_uniformity.specs.Requiring.{is_error, counts, asks, AreNext};

use ir_kinds::Severity;
use spec_expressions::{Uniformity, UniformityRequirements};
use std::alloc::{AllocError, Global};

fn is_error(severity: Severity) -> bool
    ensures { result ≡ is_error severity }
{
    match severity {
        Severity::Error => true,
        Severity::Off | Severity::Info | Severity::Warning => false,
    }
}

// Whether a requirement counts.
fn counts(severity: Severity, requirements: UniformityRequirements) -> bool
    ensures { result ≡ counts severity requirements.0 }
{
    requirements.0 == UniformityRequirements::COOP_OPS.0
        || is_error(severity)
            && (requirements.0 == UniformityRequirements::DERIVATIVE.0
                || requirements.0 == UniformityRequirements::IMPLICIT_LEVEL.0)
}

// Whether the expression at an index has a requirement that counts.
fn asks(severity: Severity, uniformities: &[Uniformity], place: usize) -> bool
    ensures { result ≡ asks severity uniformities.now place }
{
    match uniformities.get(place) {
        Some(uniformity) => counts(severity, uniformity.requirements),
        None => false,
    }
}

// For each expression the first one from it on with a requirement that counts, the number of expressions if there is none. The
// error is out of memory.
pub(crate) fn next_requiring(
    alloc: Global,
    severity: Severity,
    uniformities: &[Uniformity],
) -> Result<Vec<usize>, AllocError>
    ensures { IfOk result (λ next. AreNext (asks severity uniformities.now) (length uniformities.now) next.items) }
{
    let count = uniformities.len();
    let mut next = vec![in alloc; count; count]?;
    let mut first = count;
    let mut place = count;
    while place > 0 {
        place -= 1;
        if asks(severity, uniformities, place) {
            first = place;
        }
        next[place] = first;
    }
    Ok(next)
}
