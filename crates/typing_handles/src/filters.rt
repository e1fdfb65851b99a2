//! Whether diagnostic filters come after their parents.

ghost use Rattle.std.specs.Prelude.{◌↔◌, IsTrue};
ghost use Rattle.ir_items.specs.found.View.{module_view};
ghost use Rattle.ir_items.specs.found.Filters.{ParentsPrecede};

use ir_items::{Function, Module};
use typing_references::forward_parent;

/// Whether the parent of each diagnostic filter of the module comes before it.
pub fn filter_parents_precede(_function: &Function, module: &Module) -> bool
    ensures { IsTrue result ↔ ParentsPrecede ((module_view «module».now).filters) }
{
    match forward_parent(&module.diagnostic_filters) {
        Some(_) => false,
        None => true,
    }
}
