// Resolution of identifiers.

use crate::declared::Declared;
use crate::lowering::Lowering;
use crate::values::{Operand, Value};
use ir_arena::handle::Handle;
use ir_kinds::{AddressSpace, Literal};
use ir_types::Expression;
use wgsl_builtins::{function_of, ray_constant_of, type_of};
use wgsl_text::Extent;
use wgsl_types::{Builder, Shape};

impl<B: Builder> Lowering<B> {
    /// The declaration of the module that a word denotes.
    pub fn item(&self, name: u32) -> Option<Declared> {
        match self.names.items.get(name as usize) {
            Some(0) | None => None,
            Some(place) => self.items.get(place.saturating_sub(1) as usize).copied(),
        }
    }

    // A global variable as an operand.
    fn variable(
        &mut self,
        number: u32,
        shape: Shape,
        space: AddressSpace,
        extent: Extent,
    ) -> Value {
        if self.builder.is_global() {
            self.wrong("Unexpected runtime-expression", extent);
            return Value::Nothing;
        }
        let handle = Handle::at(number.min(4_294_967_294) as usize);
        let value = self.place(Expression::GlobalVariable(handle), extent);
        match space {
            AddressSpace::Handle => Value::Computed(value, shape),
            _ => Value::Place(value, shape, space),
        }
    }

    // The operand of an identifier that denotes this declaration.
    fn item_value(&mut self, item: Declared, extent: Extent) -> Value {
        match item {
            Declared::Literal(literal) => Value::Literal(literal),
            Declared::Known(place, shape) => Value::Known(place, shape),
            Declared::Override(number, shape) => Value::Override(number, shape),
            Declared::Type(shape) => Value::Type(shape),
            Declared::Variable(number, shape, space) => self.variable(number, shape, space, extent),
            Declared::Function(entry) => Value::Function(entry),
            Declared::Nothing => {
                self.unsupported_name("the item ", extent);
                Value::Nothing
            }
        }
    }

    // The operand of a predeclared identifier.
    fn predeclared(&self, name: u32) -> Value {
        let word = self.tree.tokens.word(name);
        if let Some(maker) = type_of(word) {
            return Value::Maker(maker);
        }
        if let Some(number) = ray_constant_of(word) {
            return Value::Literal(Literal::U32(number));
        }
        match function_of(word) {
            Some(function) => Value::BuiltIn(function),
            None => Value::Word(name),
        }
    }

    /// Lowers an identifier.
    pub fn name(&mut self, name: u32, token: u32) {
        let extent = self.extent(token);
        let value = match self.scopes.get(name) {
            Some(value) => value,
            None => match self.item(name) {
                Some(item) => self.item_value(item, extent),
                None => self.predeclared(name),
            },
        };
        self.push(Operand { value, extent });
    }
}
