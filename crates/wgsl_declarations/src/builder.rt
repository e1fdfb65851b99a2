// The interface through which modules are built.

use ir_flags::Capabilities;
use ir_items::{Constant, DiagnosticFilter, FunctionArgument, FunctionResult, GlobalVariable};
use ir_kinds::{EarlyDepthTest, ShaderStage};
use wgsl_text::Extent;
use wgsl_types::Builder;

/// The properties of an entry point except its function.
#[derive(Clone, Copy)]
pub struct EntryHead {
    /// Its stage.
    pub stage: ShaderStage,
    /// The workgroup size.
    pub size: [u32; 3],
    /// The early depth test, if it has one.
    pub depth_test: Option<EarlyDepthTest>,
    /// The index of the output variable of a mesh shader.
    pub mesh: Option<u32>,
    /// The index of the variable with the task payload.
    pub payload: Option<u32>,
}

/// The target that a module is emitted into.
pub trait ModuleBuilder: Builder {
    /// Sets whether the following expressions are global or in a function.
    fn set_global(&mut self, is_global: bool);

    /// Adds a global variable; returns its index.
    fn variable(&mut self, variable: GlobalVariable, extent: Extent) -> u32;

    /// Adds a diagnostic filter, for the module if it is before the first declaration, else for the next function.
    fn filter(&mut self, filter: DiagnosticFilter, extent: Extent);

    /// Ends the diagnostic filters of the module.
    fn end_directives(&mut self);

    /// Adds a constant; returns its index.
    fn constant(&mut self, constant: Constant, extent: Extent) -> u32;

    /// Ends a function, whose body is the open block; returns its index.
    fn end_function(
        &mut self,
        name: Option<String>,
        arguments: Vec<FunctionArgument>,
        gives: Option<FunctionResult>,
        extent: Extent,
    ) -> u32;

    /// Ends an entry point, whose body is the open block.
    fn end_entry(
        &mut self,
        head: EntryHead,
        name: Option<String>,
        arguments: Vec<FunctionArgument>,
        gives: Option<FunctionResult>,
    );
}
