//! The stages that may run functions with known information.

ghost use Rattle.std.specs.Prelude.{map};

use bitflags::Flags;
use ir_arena::handle::Handle;
use ir_flags::ShaderStages;
use ir_types::key;
use module_context::CalleeStages;
use typing_infos::FunctionInfo;

/// The stages noted in the information on functions (`available_stages` of naga's `FunctionInfo`).
#[derive(Clone, Copy)]
pub struct NotedStages<'a>(
    /// The information on each.
    pub &'a [FunctionInfo],
);

impl CalleeStages for NotedStages<'_> {
    ghost use Rattle.function_interface.specs.Callees.{noted};

    ghost stages = { λ s. noted s.0.now };

    fn stages_at(&self, function: Handle<key::Function>) -> ShaderStages {
        match self.0.get(function.index()) {
            Some(info) => info.available_stages,
            None => ShaderStages::all(),
        }
    }
}
