//! The context of a requirement text.

use check_cause_texts::Types;
use check_causes::Cause;
use ir_arena::arena::Arena;
use ir_arena::handle::Handle;
use ir_items::GlobalVariable;
use ir_types::key;
use module_context::CheckContext;
use std::fmt;
use typing_forms::form_of_type;

/// The context of a requirement text: the expressions around the error, with their types as far as they are known; the
/// global variables; and the broken rule of the expression, if its kind has several.
#[derive(Clone, Copy)]
pub struct Scene<'a> {
    /// The expressions of the invalid function, or those of the module.
    pub context: CheckContext<'a>,
    /// The global variables of the module.
    pub globals: &'a Arena<GlobalVariable, key::GlobalVariable>,
    /// The rule that is broken.
    pub cause: Option<&'a Cause>,
}

impl<'a> Scene<'a> {
    /// The types of the module.
    pub fn types(&self) -> Types<'a> {
        Types(self.context.types)
    }

    /// Writes the type of an expression, after a given word; nothing if the type is not known.
    pub fn write_given<W: fmt::Write>(
        &self,
        f: &mut fmt::Formatter<W>,
        before: &str,
        handle: Handle<key::Expression>,
    ) -> fmt::Result {
        if handle.index() >= self.context.forms.len() {
            return Ok(());
        }
        let form = self.context.form_at(handle);
        write!(f, "{before}{}", self.types().text(&form))
    }

    /// Writes a type of the module with its index.
    pub fn write_type<W: fmt::Write>(
        &self,
        f: &mut fmt::Formatter<W>,
        ty: Handle<key::IrType>,
    ) -> fmt::Result {
        let form = form_of_type(self.context.types, ty);
        write!(f, "{} (types[{}])", self.types().text(&form), ty.index())
    }
}
