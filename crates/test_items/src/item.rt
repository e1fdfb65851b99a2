// IR items: how a line of the input gives them, how they are copied, and the report on them.
use crate::modules::document_of;
use document_expressions::ExpressionForm;
use document_items::{ConstantForm, FilterForm, GlobalForm, OverrideForm, SpecialForm, TypeForm};
use document_reader::{BodyForm, EntryForm, FunctionForm, LocalForm};
use ir_items::{
    Block, Constant, DiagnosticFilterNode, EntryPoint, Expression, Function, GlobalVariable,
    IrType, LocalVariable, Module, Override, SpecialTypes,
};
use serde_json::Value;
use std::alloc::{AllocError, Global};
use test_support::call::{found, freeing, no_call, told};

/// What a line can give, and what can be copied.
pub trait Item: PartialEq + Drop + Sized {
    /// The item in this form.
    fn read(alloc: Global, value: &Value) -> Result<Option<Self>, AllocError>;

    /// A copy of it.
    fn copy(&self, alloc: Global) -> Result<Self, AllocError>;
}

/// The item at an index of a line, or `None`.
pub fn read_at<T: Item>(
    alloc: Global,
    call: &Value,
    place: usize,
) -> Result<Option<T>, AllocError> {
    match call.get(place) {
        Some(value) => T::read(alloc, value),
        None => Ok(None),
    }
}

// Whether a copy of an item equals it, and whether it equals another one.
fn comparison<T: Item>(source: &T, copy: &T, other: &Option<T>) -> (bool, Option<bool>) {
    match other {
        Some(other) => (*copy == *source, Some(*copy == *other)),
        None => (*copy == *source, None),
    }
}

// The report on an item and a copy of it, beside another one.
fn of_copy<T: Item>(alloc: Global, source: &T, other: &Option<T>) -> Result<String, AllocError> {
    let copy = source.copy(alloc)?;
    freeing(told(alloc, comparison(source, &copy, other)), copy)
}

// The same beside the one of a line.
fn of_source<T: Item>(alloc: Global, source: &T, call: &Value) -> Result<String, AllocError> {
    let other: Option<T> = read_at(alloc, call, 2)?;
    freeing(of_copy(alloc, source, &other), other)
}

/// The report on a copied item, and on another one. Each is freed by a call of its own, which is cheaper to prove than a drop
/// on every way out.
pub fn compared<T: Item>(alloc: Global, call: &Value) -> Result<String, AllocError> {
    match read_at::<T>(alloc, call, 1)? {
        Some(source) => freeing(of_source(alloc, &source, call), source),
        None => no_call(alloc),
    }
}

impl Item for IrType {
    fn read(alloc: Global, value: &Value) -> Result<Option<Self>, AllocError> {
        found::<TypeForm>(alloc, value)
    }

    fn copy(&self, alloc: Global) -> Result<Self, AllocError> {
        self.clone(alloc)
    }
}

impl Item for Expression {
    fn read(alloc: Global, value: &Value) -> Result<Option<Self>, AllocError> {
        found::<ExpressionForm>(alloc, value)
    }

    fn copy(&self, alloc: Global) -> Result<Self, AllocError> {
        self.clone(alloc)
    }
}

impl Item for Block {
    fn read(alloc: Global, value: &Value) -> Result<Option<Self>, AllocError> {
        found::<BodyForm>(alloc, value)
    }

    fn copy(&self, alloc: Global) -> Result<Self, AllocError> {
        self.clone(alloc)
    }
}

impl Item for Constant {
    fn read(alloc: Global, value: &Value) -> Result<Option<Self>, AllocError> {
        found::<ConstantForm>(alloc, value)
    }

    fn copy(&self, alloc: Global) -> Result<Self, AllocError> {
        self.clone(alloc)
    }
}

impl Item for Override {
    fn read(alloc: Global, value: &Value) -> Result<Option<Self>, AllocError> {
        found::<OverrideForm>(alloc, value)
    }

    fn copy(&self, alloc: Global) -> Result<Self, AllocError> {
        self.clone(alloc)
    }
}

impl Item for GlobalVariable {
    fn read(alloc: Global, value: &Value) -> Result<Option<Self>, AllocError> {
        found::<GlobalForm>(alloc, value)
    }

    fn copy(&self, alloc: Global) -> Result<Self, AllocError> {
        self.clone(alloc)
    }
}

impl Item for LocalVariable {
    fn read(alloc: Global, value: &Value) -> Result<Option<Self>, AllocError> {
        found::<LocalForm>(alloc, value)
    }

    fn copy(&self, alloc: Global) -> Result<Self, AllocError> {
        self.clone(alloc)
    }
}

impl Item for DiagnosticFilterNode {
    fn read(alloc: Global, value: &Value) -> Result<Option<Self>, AllocError> {
        found::<FilterForm>(alloc, value)
    }

    fn copy(&self, alloc: Global) -> Result<Self, AllocError> {
        self.clone(alloc)
    }
}

impl Item for SpecialTypes {
    fn read(alloc: Global, value: &Value) -> Result<Option<Self>, AllocError> {
        found::<SpecialForm>(alloc, value)
    }

    fn copy(&self, alloc: Global) -> Result<Self, AllocError> {
        self.clone(alloc)
    }
}

impl Item for Function {
    fn read(alloc: Global, value: &Value) -> Result<Option<Self>, AllocError> {
        found::<FunctionForm>(alloc, value)
    }

    fn copy(&self, alloc: Global) -> Result<Self, AllocError> {
        self.clone(alloc)
    }
}

impl Item for EntryPoint {
    fn read(alloc: Global, value: &Value) -> Result<Option<Self>, AllocError> {
        found::<EntryForm>(alloc, value)
    }

    fn copy(&self, alloc: Global) -> Result<Self, AllocError> {
        self.clone(alloc)
    }
}

// A module is given as the text of its document.
impl Item for Module {
    fn read(alloc: Global, value: &Value) -> Result<Option<Self>, AllocError> {
        let text = value.as_str().unwrap_or("");
        match document_of(alloc, text.as_bytes())? {
            Some(document) => Ok(Some(document.into_module())),
            None => Ok(None),
        }
    }

    fn copy(&self, alloc: Global) -> Result<Self, AllocError> {
        self.clone(alloc)
    }
}
