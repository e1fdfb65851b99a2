//! The uniformity fault of a function.

ghost use Rattle.std.specs.Prelude.{◌≡◌, IfOk};
ghost use Rattle.ir_items.specs.found.View.{function_view, module_view};
ghost use Rattle.ir_items.specs.found.Filters.{ParentsPrecede};
ghost use Rattle.typing_uniformity.specs.Facts.{AreUniformities};
ghost use Rattle.typing_uniformity.specs.Faults.{IsAnswer};
ghost use Rattle.typing_uniformity.specs.Nearest.{AreNearest};

use crate::{NonUniform, derivative_severity_by, find_fault};
use ir_flags::ValidationFlags;
use ir_items::{Function, Module};
use ir_kinds::Severity;
use spec_expressions::Uniformity;
use std::alloc::{AllocError, Global};

/// A uniformity fault of a function of the module, or `None` if there is none (see [`find_fault`]). `uniformities` has for
/// each of its expressions the source of non-uniformity of its value and its requirements, and each diagnostic filter's parent
/// precedes it. The error is out of memory.
pub fn uniformity_fault(
    alloc: Global,
    flags: ValidationFlags,
    module: &Module,
    function: &Function,
    uniformities: &[Uniformity],
) -> Result<Option<NonUniform>, AllocError>
    requires uniformities { AreUniformities (module_view «module».now) (function_view function.now) uniformities.now }
    requires parents { ParentsPrecede ((module_view «module».now).filters) }
    ensures { IfOk result (IsAnswer flags (module_view «module».now) (function_view function.now)) }
{
    uniformity_fault_by(alloc, flags, &[], module, function, uniformities)
}

/// As above, with the severities of the module's diagnostic filters given as `known` (see [`crate::severities_of`]), so that the
/// filters are not walked again. The error is out of memory.
pub fn uniformity_fault_by(
    alloc: Global,
    flags: ValidationFlags,
    known: &[Option<Severity>],
    module: &Module,
    function: &Function,
    uniformities: &[Uniformity],
) -> Result<Option<NonUniform>, AllocError>
    requires uniformities { AreUniformities (module_view «module».now) (function_view function.now) uniformities.now }
    requires parents { ParentsPrecede ((module_view «module».now).filters) }
    requires known { AreNearest (module_view «module».now).filters known.now }
    ensures { IfOk result (IsAnswer flags (module_view «module».now) (function_view function.now)) }
{
    let severity = derivative_severity_by(known, function, module);
    find_fault(alloc, flags, severity, uniformities, &function.body)
}
