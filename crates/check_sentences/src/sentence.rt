//! The requirement text for an invalid module.

use crate::entries::write_entry;
use crate::items::{write_constant, write_layout, write_override, write_type, write_variable};
use check_function_texts::{Scene, write_function, write_global_expression};
use function_errors::ValidationError;
use function_errors::module_steps::ModuleError;
use ir_items::Module;
use std::fmt::{self, Display};

/// The requirement text for an invalid module, as one sentence without a full stop: empty for errors of handles.
#[derive(Clone, Copy)]
pub struct Sentence<'a> {
    /// The context.
    pub scene: Scene<'a>,
    /// The module.
    pub module: &'a Module,
    /// The error.
    pub error: &'a ValidationError,
}

fn write_module<W: fmt::Write>(
    f: &mut fmt::Formatter<W>,
    scene: &Scene<'_>,
    module: &Module,
    error: &ModuleError,
) -> fmt::Result {
    match error {
        ModuleError::InvalidHandle(_) => Ok(()),
        ModuleError::Layouter(error) => write_layout(f, error.inner),
        ModuleError::Typing(error) => write_type(f, scene, error.ty, &error.error),
        ModuleError::ConstExpression(error) => {
            write_global_expression(f, scene, error.expression, &error.error)
        }
        ModuleError::Constant(error) => {
            let constant = module.constants.try_get(error.constant).ok();
            write_constant(f, scene, constant, error.error)
        }
        ModuleError::Override(error) => {
            let item = module.overrides.try_get(error.id).ok();
            write_override(f, scene, item, error.error)
        }
    }
}

impl Display for Sentence<'_> {
    fn fmt<W: fmt::Write>(&self, f: &mut fmt::Formatter<W>) -> fmt::Result {
        let scene = &self.scene;
        match self.error {
            ValidationError::Module(error) => write_module(f, scene, self.module, error),
            ValidationError::GlobalVariable(error) => {
                let variable = scene.globals.try_get(error.global).ok();
                write_variable(f, variable, error.global, &error.error)
            }
            ValidationError::Function(error) => write_function(f, scene, &error.error),
            ValidationError::EntryPoint(error) => {
                let entry = self.module.entry_points.get(error.index);
                write_entry(f, scene, entry, error.index, &error.error)
            }
        }
    }
}
