//! The layouts of the types of a module.

ghost use Rattle.std.specs.Prelude.{◌≡◌, ◌<◌, [], Some, length, slice_get, take, OnOk, IfErr};
ghost use Rattle.typing_forms.specs.judged.Order.{TypesGoBack};
ghost use Rattle.typing_forms.specs.judged.Resolutions.{types_view};
ghost use Rattle.typing_layout.specs.found.Held.{AreLayouts, IsRefusal};

use crate::error::LayoutError;
use crate::layout::TypeLayout;
use crate::layout_of::layout_of;
use std::alloc::Global;
use std::marker::Model;
use std::ops::Index;
use typing_forms::UniqueArena;
use typing_forms::ir_arena::handle::Handle;
use typing_forms::ir_types::refusal::Refusal;
use typing_forms::ir_types::with_span::WithSpan;
use typing_forms::ir_types::{IrType, key};

/// The layouts of the types of a module, or of the first of them, by handle (naga's `Layouter`). In a contract it is
/// the list of the layouts.
#[derive(Debug, Drop)]
pub struct Layouter {
    layouts: Vec<TypeLayout>,
}

impl Model for Layouter {
    ghost use Rattle.std.specs.Prelude.{List};
    ghost use Rattle.typing_layout.specs.declared.layout.TypeLayout.{TypeLayout};

    ghost Value = { List TypeLayout };

    ghost view = { λ l. l.layouts.items };
}

// Lays out the types, starting with the first one that has no layout yet.
fn lay_out(
    layouts: &mut Vec<TypeLayout>,
    types: &UniqueArena<IrType, key::IrType>,
) -> Result<(), Refusal<LayoutError>>
    requires back { TypesGoBack (types_view types.now) }
    requires held { AreLayouts (types_view types.now) layouts.old.items }
    ensures held { AreLayouts (types_view types.now) layouts.new.items }
    ensures earlier { take (length layouts.old.items) layouts.new.items ≡ layouts.old.items }
    ensures all { OnOk result (length layouts.new.items ≡ length types.now) }
    ensures refused { IfErr result (IsRefusal (types_view types.now) layouts.new.items) }
{
    for place in layouts.len()..types.len() {
        let ty = Handle::at(place);
        match layout_of(&types[ty].inner, layouts.as_slice()) {
            Ok(layout) => layouts.push(layout)?,
            Err(inner) => {
                let error = LayoutError { ty, inner };
                return Err(Refusal::Fault(WithSpan::new(*layouts.allocator(), error)));
            }
        }
    }
    Ok(())
}

impl Layouter {
    /// An empty layouter, which allocates nothing.
    pub fn new(alloc: Global) -> Self
        ensures { result ≡ [] }
    {
        Layouter {
            layouts: Vec::new(alloc),
        }
    }

    /// Removes all layouts. The layouter keeps its memory.
    pub fn clear(&mut self)
        ensures { self.new ≡ [] }
    {
        self.layouts.clear();
    }

    /// Lays out the types that have no layout yet (naga's `update`). Requires that types refer to earlier types, and that each
    /// layout kept is that of the type at its index: the types are those of the earlier calls, with possibly more appended.
    ///
    /// # Errors
    ///
    /// The fault of the first type that has no layout, with no span; or out of memory. The layouts of all earlier types are
    /// kept then.
    pub fn update(
        &mut self,
        types: &UniqueArena<IrType, key::IrType>,
    ) -> Result<(), Refusal<LayoutError>>
        requires back { TypesGoBack (types_view types.now) }
        requires held { AreLayouts (types_view types.now) self.old }
        ensures held { AreLayouts (types_view types.now) self.new }
        ensures earlier { take (length self.old) self.new ≡ self.old }
        ensures all { OnOk result (length self.new ≡ length types.now) }
        ensures refused { IfErr result (IsRefusal (types_view types.now) self.new) }
    {
        lay_out(&mut self.layouts, types)
    }
}

impl Index<Handle<key::IrType>> for Layouter {
    type Output = TypeLayout;

    ghost can_index = { λ l handle. handle < length l };

    ghost index_gives = { λ l handle layout. slice_get l handle ≡ Some layout };

    /// The layout of a type that is laid out.
    fn index(&self, handle: Handle<key::IrType>) -> &TypeLayout
        requires { handle < length self.now }
        ensures { slice_get self.now handle ≡ Some result.now }
    {
        &self.layouts[handle.index()]
    }
}
