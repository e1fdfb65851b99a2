//! Uses of global variables, one for each in order.

ghost use Rattle.std.specs.Prelude.{◌≡◌};
ghost use Rattle.typing_infos.specs.Infos.{with_uses};

use ir_arena::handle::Handle;
use ir_types::key;
use spec_expressions::GlobalUse;
use typing_infos::mark_at;

/// Adds uses of a global variable. If it does not exist, nothing changes.
pub(crate) fn mark_all(
    uses: &mut Vec<GlobalUse>,
    noted: &[(Handle<key::GlobalVariable>, GlobalUse)],
)
    ensures { uses.new.items ≡ with_uses uses.old.items noted.now }
{
    for more in noted {
        mark_at(uses, more.0.index(), more.1);
    }
}
