// The calls on types of expressions, over a module of types.
use crate::given::Types;
use crate::{compared, conclusions, parts, scalars};
use document_items::TypeForm;
use ir_arena::span::Span;
use ir_items::Module;
use serde_json::Value;
use std::alloc::{AllocError, Global};
use test_support::call::{found, handle, list, text, told};
use typing_forms::types_go_back;

/// The module whose types are queried.
#[derive(Drop)]
pub struct TypeCalls {
    module: Module,
}

impl TypeCalls {
    /// A module without types.
    pub fn new(alloc: Global) -> Self {
        TypeCalls {
            module: Module::new(alloc),
        }
    }

    // Adds the types of a line. Returns their number, and whether they only reference earlier ones.
    fn add_types(&mut self, alloc: Global, types: &[Value]) -> Result<(usize, bool), AllocError> {
        for value in types {
            if let Some(ty) = found::<TypeForm>(alloc, value)? {
                self.module.types.insert(ty, Span::UNDEFINED)?;
            }
        }
        Ok((self.module.types.len(), types_go_back(&self.module.types)))
    }

    // Sets the predeclared type of a line to a type of the module. Returns how many are set.
    fn declare(&mut self, call: &Value) -> Result<usize, AllocError> {
        let predeclared = &mut self.module.special_types.predeclared_types;
        if let Some(key) = conclusions::predeclared(call) {
            predeclared.insert(key, handle(call, 3))?;
        }
        Ok(predeclared.len())
    }

    /// The result of a call.
    pub fn answer(&mut self, alloc: Global, call: &Value) -> Result<String, AllocError> {
        let types = &self.module.types;
        match text(call, 0) {
            "add_types" => told(alloc, self.add_types(alloc, list(call, 1))),
            "declare" => told(alloc, self.declare(call)),
            "conclusion" => conclusions::of_conclusion(alloc, &self.module.special_types, call),
            "form_at" => compared::of_handle(alloc, types, call),
            "handle" | "inner_with" | "clone" | "form_of" => {
                compared::of_resolution(alloc, types, call)
            }
            "form_equality" => compared::of_forms(alloc, types, call),
            "compare_types" => compared::of_pair(alloc, &self.module, call),
            "non_struct_equivalent" | "automatically_converts_to" => {
                parts::of_pair(alloc, types, call)
            }
            _ => scalars_or_types(alloc, types, call),
        }
    }
}

// The result of a call on a scalar, if a word is after its name, or on a type.
fn scalars_or_types(alloc: Global, types: &Types, call: &Value) -> Result<String, AllocError> {
    if text(call, 1) != "" {
        return scalars::of_scalar(alloc, call);
    }
    parts::of_type(alloc, types, call)
}
