// Automatic conversions, and the load rule.

use crate::lowering::Lowering;
use crate::values::{Operand, Value, handle_of};
use ir_arena::handle::Handle;
use ir_kinds::Scalar;
use ir_types::Expression;
use wgsl_convert::{literal_as, target_of, whole_as};
use wgsl_text::{Extent, WgslError};
use wgsl_types::{Builder, Shape};
use wgsl_values::concrete_scalar;

impl<B: Builder> Lowering<B> {
    /// The leaf scalar of an operand, if it has one.
    pub fn scalar_of(&self, operand: &Operand) -> Option<Scalar> {
        match operand.value {
            Value::Literal(literal) => Some(literal.scalar()),
            Value::Known(_, shape) => self.table.leaf(shape),
            Value::Computed(_, shape) | Value::Override(_, shape) | Value::Place(_, shape, _) =>
                shape.scalar(),
            _ => None,
        }
    }

    /// The scalar that an operand is concretized to without an expected type.
    pub fn concrete_of(&self, operand: &Operand) -> Option<Scalar> {
        match operand.value {
            Value::Literal(literal) => Some(concrete_scalar(literal)),
            Value::Known(place, shape) => match self.table.leaf(shape) {
                Some(scalar) if scalar.is_abstract() => Some(self.store.concrete(place)),
                scalar => scalar,
            },
            _ => self.scalar_of(operand),
        }
    }

    /// Applies the load rule: a reference is loaded.
    pub fn load(&mut self, operand: Operand) -> Operand {
        let extent = operand.extent;
        match operand.value {
            Value::Place(_, Shape::Atomic(_), _) => {
                self.wrong(
                    "atomic variables cannot be accessed directly; use atomic built-in functions",
                    extent,
                );
                Operand::NOTHING
            }
            Value::Place(pointer, shape, _) => {
                let pointer = handle_of(pointer);
                let value = self.compute(Expression::Load { pointer }, extent);
                Operand::computed(value, shape, extent)
            }
            Value::Word(name) => {
                self.undefined(name, extent);
                Operand::NOTHING
            }
            Value::Nothing => {
                self.wrong("function does not return any value", extent);
                Operand::NOTHING
            }
            Value::Type(_)
            | Value::Maker(_)
            | Value::Function(_)
            | Value::BuiltIn(_)
            | Value::Bitcast(_)
            | Value::CooperativeLoad(..) => {
                self.wrong("unexpected expression", extent);
                Operand::NOTHING
            }
            _ => operand,
        }
    }

    /// Reports an undeclared identifier.
    pub fn undefined(&mut self, _name: u32, extent: Extent) {
        self.fail(WgslError::of_name("no definition in scope for identifier: ", extent, ""));
    }

    /// An operand converted to this scalar if there is an automatic conversion, else unchanged: its expression and type.
    pub fn value_as(&mut self, operand: Operand, to: Scalar) -> (u32, Shape) {
        let loaded = self.load(operand);
        let extent = loaded.extent;
        match loaded.value {
            Value::Literal(literal) => {
                let scalar = target_of(literal, to);
                let value = literal_as(&mut self.builder, literal, scalar, extent);
                (value, Shape::Scalar(scalar))
            }
            Value::Known(place, _) => whole_as(
                self.alloc,
                &mut self.store,
                &mut self.table,
                &mut self.builder,
                place,
                to,
                extent,
            ),
            Value::Computed(value, shape) => (value, shape),
            Value::Override(number, shape) => {
                let handle = Handle::at(number.min(4_294_967_294) as usize);
                (self.place(Expression::Override(handle), extent), shape)
            }
            _ => (0, Shape::None),
        }
    }

    /// An operand without an expected type: its abstract scalars are concretized.
    pub fn value(&mut self, operand: Operand) -> (u32, Shape) {
        let loaded = self.load(operand);
        let to = self.concrete_of(&loaded).unwrap_or(Scalar::I32);
        self.value_as(loaded, to)
    }

    /// An operand for an expected type: constants are converted to it.
    pub fn value_for(&mut self, operand: Operand, shape: Shape) -> u32 {
        match self.table.leaf(shape) {
            Some(scalar) => self.value_as(operand, scalar).0,
            None => self.value(operand).0,
        }
    }
}
