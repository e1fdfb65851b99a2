//! The stages that a layer has noted for functions.

use bitflags::Flags;
use function_interface::{CalleeStages, Lower};
use ir_arena::handle::Handle;
use ir_flags::ShaderStages;
use ir_types::key;

/// The stages noted in a layer's information on functions.
#[derive(Clone, Copy)]
pub(crate) struct KeptStages<'a, L: Lower> {
    /// The layer.
    pub lower: &'a L,
    /// The information on each function.
    pub infos: &'a [L::Info],
}

impl<L: Lower> CalleeStages for KeptStages<'_, L> {
    ghost use Rattle.std.specs.Prelude.{map};

    ghost stages = { λ s. map (L.noted s.lower.now) s.infos.now };

    fn stages_at(&self, function: Handle<key::Function>) -> ShaderStages {
        match self.infos.get(function.index()) {
            Some(info) => self.lower.stages(info),
            None => ShaderStages::all(),
        }
    }
}
