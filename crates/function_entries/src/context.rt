//! The context of the checks of entry points.

ghost use Rattle.std.specs.Prelude.{◌≡◌};
ghost use Rattle.function_entries.specs.Contexts.{IsKnown, varying_context};
ghost use Rattle.function_varying_checks.specs.View.{IsReported, context_view};

use function_varying_checks::VaryingContext;
use ir_flags::{Capabilities, ValidationFlags};
use ir_items::{EntryPoint, Module};
use spec_interface::Direction;
use typing_layout::TypeInfo;

/// The context in which an entry point is checked.
#[derive(Clone, Copy)]
pub struct EntryContext<'a> {
    /// The validation flags.
    pub flags: ValidationFlags,
    /// The enabled capabilities.
    pub capabilities: Capabilities,
    /// The module.
    pub module: &'a Module,
    /// The `TypeInfo`s of its types.
    pub infos: &'a [TypeInfo],
    /// The entry point.
    pub entry: &'a EntryPoint,
}

/// The context of the checks of varyings in this direction.
pub(crate) fn varying_context<'a>(
    context: &EntryContext<'a>,
    direction: Direction,
) -> VaryingContext<'a>
    requires { IsKnown context.now }
    ensures view { context_view result ≡ varying_context context.now direction }
    ensures told { IsReported result }
{
    VaryingContext {
        flags: context.flags,
        capabilities: context.capabilities,
        types: &context.module.types,
        infos: context.infos,
        stage: context.entry.stage,
        workgroup_size: context.entry.workgroup_size,
        task_payload: context.entry.task_payload,
        direction,
    }
}
