//! Lookup of the shader stages of the functions that an expression or a body calls.

ghost use Rattle.std.specs.Prelude.{◌≡◌, List};
ghost use Rattle.ir_flags.specs.declared.stages.ShaderStages.{ShaderStages};
ghost use Rattle.spec_statements.specs.judged.ExpressionStages.{callee_stages};

use bitflags::Flags;
use ir_arena::handle::Handle;
use ir_flags::ShaderStages;
use ir_types::key;

/// The stages that may run the module's functions, if known.
pub trait CalleeStages {
    ghost stages: { Self → List ShaderStages };

    /// The stages that may run a function; all stages if unknown.
    fn stages_at(&self, function: Handle<key::Function>) -> ShaderStages
        ensures { result ≡ callee_stages (stages self.now) function };
}

/// A list of stages, one entry for each function.
#[derive(Clone, Copy)]
pub struct ListedStages<'a>(
    /// The list.
    pub &'a [ShaderStages],
);

impl CalleeStages for ListedStages<'_> {
    ghost stages = { λ s. s.0.now };

    fn stages_at(&self, function: Handle<key::Function>) -> ShaderStages {
        match self.0.get(function.index()) {
            Some(stages) => *stages,
            None => ShaderStages::all(),
        }
    }
}
