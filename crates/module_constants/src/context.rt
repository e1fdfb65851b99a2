//! The context in which global expressions, constants and overrides are checked.

ghost use Rattle.std.specs.Prelude.{◌≡◌, ◌<◌, ◌↔◌, IsTrue, List, Some, length, slice_get};
ghost use Rattle.module_constants.specs.Known.{IsKnown, IsJudged, module_in};
ghost use Rattle.ir_types.specs.judged.Plain.{PlainType};
ghost use Rattle.typing_layout.specs.judged.Flags.{HasFlag, Constructible};
ghost use Rattle.typing_layout.specs.judged.Tree.{Tree};
ghost use Rattle.typing_layout.specs.judged.View.{type_tree};
ghost use Rattle.typing_layout.specs.found.Infos.{HasInfo};

use bitflags::Flags;
use ir_arena::handle::Handle;
use ir_flags::Capabilities;
use ir_items::Module;
use ir_types::key;
use typing_forms::laws::form_equality;
use typing_forms::{Form, form_of_type};
use typing_layout::{ExpressionKind, ExpressionKindTracker, TypeFlags, TypeInfo};

/// The context in which global expressions, constants and overrides are checked.
#[derive(Clone, Copy)]
pub struct GlobalContext<'a> {
    /// The enabled capabilities.
    pub capabilities: Capabilities,
    /// Whether overrides are resolved.
    pub overrides_resolved: bool,
    /// The module.
    pub module: &'a Module,
    /// The expression kinds of its global expressions (constant, override or runtime).
    pub kinds: &'a ExpressionKindTracker,
    /// The forms of the types of its global expressions.
    pub forms: &'a [Form],
    /// The `TypeInfo`s of its types.
    pub infos: &'a [TypeInfo],
}

/// The expression kind of a global expression.
pub(crate) fn known_kind(
    context: &GlobalContext<'_>,
    expression: Handle<key::Expression>,
) -> ExpressionKind
    requires known { IsKnown context.now }
    requires within { expression < length context.now.kinds.now }
    ensures { slice_get context.now.kinds.now expression ≡ Some result }
{
    if context.kinds.is_const(expression) {
        return ExpressionKind::Const;
    }
    if context.kinds.is_const_or_override(expression) {
        return ExpressionKind::Override;
    }
    ExpressionKind::Runtime
}

/// Whether a global expression has the type at a handle.
pub(crate) fn has_type(
    context: &GlobalContext<'_>,
    expression: Handle<key::Expression>,
    ty: Handle<key::IrType>,
) -> bool
    requires known { IsKnown context.now }
    requires within { expression < length context.now.forms.now }
    ensures { IsJudged (module_in context.now) expression ty result }
{
    form_equality(
        context.forms[expression.index()],
        form_of_type(&context.module.types, ty),
    )
}

// Whether a type with this `TypeInfo` is constructible.
fn has_constructible(info: TypeInfo) -> bool
    ensures { (types : List PlainType) (t : Tree) → HasInfo types t info → IsTrue result ↔ HasFlag Constructible t }
{
    info.flags.contains(TypeFlags::CONSTRUCTIBLE)
}

/// Whether the type at a handle is constructible.
pub(crate) fn is_composed(context: &GlobalContext<'_>, ty: Handle<key::IrType>) -> bool
    requires known { IsKnown context.now }
    requires within { ty < length context.now.infos.now }
    ensures { IsTrue result ↔ HasFlag Constructible (type_tree (module_in context.now).types ty) }
{
    has_constructible(context.infos[ty.index()])
}
