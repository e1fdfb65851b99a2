// Declarations in functions.

use crate::flow::Flow;
use ir_blocks::Statement;
use ir_items::LocalVariable;
use ir_kinds::AddressSpace;
use wgsl_expressions::{Lowering, Operand, Value, handle_of, number_of};
use wgsl_text::{Extent, Failure, WgslError};
use wgsl_types::{Builder, Shape};
use wgsl_values::converted;

// Whether a value's type is the expected type. Arrays, structs and pointers are not compared.
fn agrees(wanted: Shape, found: Shape) -> bool {
    match (wanted, found) {
        (Shape::Row(_), _) | (_, Shape::Row(_)) => true,
        _ => wanted == found,
    }
}

// Declares an identifier from here on.
pub(crate) fn declare<B: Builder>(lowering: &mut Lowering<B>, token: u32, value: Value) {
    let name = lowering.word_at(token);
    let extent = lowering.extent(token);
    let mut failed = Failure::NONE;
    if !lowering.scopes.set(name, value, &mut failed) {
        failed.fail(WgslError::of_name("redefinition of ", extent, ""));
    }
    lowering.join(&failed);
}

// The initializer of a declaration, converted to the declared type, if there is one.
fn initial<B: Builder>(
    lowering: &mut Lowering<B>,
    wanted: Option<Shape>,
    operand: Operand,
    name: Extent,
) -> (u32, Shape) {
    let Some(wanted) = wanted else {
        return lowering.value(operand);
    };
    let (value, found) = match lowering.table.leaf(wanted) {
        Some(scalar) => lowering.value_as(operand, scalar),
        None => lowering.value(operand),
    };
    if !agrees(wanted, found) {
        let text = " is expected to be of another type than its value";
        lowering.fail(WgslError::of_name("the type of ", name, text));
    }
    (value, wanted)
}

// The declared type, below the initializer on the stack.
fn typed<B: Builder>(lowering: &mut Lowering<B>, is_typed: bool) -> Option<Shape> {
    if !is_typed {
        return None;
    }
    let operand = lowering.pop();
    Some(lowering.type_of(&operand))
}

// Lowers a `let`.
pub(crate) fn bind<B: Builder>(
    lowering: &mut Lowering<B>,
    flow: &mut Flow,
    is_typed: bool,
    token: u32,
) {
    let popped = lowering.pop();
    let operand = lowering.load(popped);
    let wanted = typed(lowering, is_typed);
    let extent = lowering.extent(token);
    let (value, shape) = initial(lowering, wanted, operand, extent);
    if let (Value::Literal(literal), Shape::Scalar(scalar)) = (operand.value, shape) {
        if let Some(literal) = converted(literal, scalar) {
            let mut failed = Failure::NONE;
            flow.bind(value, literal, &mut failed);
            lowering.join(&failed);
        }
    }
    declare(lowering, token, Value::Computed(value, shape));
}

// Lowers a `const`.
pub(crate) fn constant<B: Builder>(lowering: &mut Lowering<B>, is_typed: bool, token: u32) {
    let popped = lowering.pop();
    let operand = lowering.load(popped);
    let wanted = typed(lowering, is_typed);
    let extent = lowering.extent(token);
    let known = match wanted {
        Some(shape) => match lowering.known_for(&operand, shape) {
            Some(place) => Some(lowering.store.known(place)),
            None => None,
        },
        None => lowering.known_of(&operand),
    };
    let value = match known {
        Some(known) => lowering.value_of(known),
        None if lowering.known_of(&operand).is_some() => {
            let text = " is expected to be of another type than its value";
            lowering.fail(WgslError::of_name("the type of ", extent, text));
            Value::Nothing
        }
        None => {
            lowering.unsupported(
                "a constant that is computed when the shader runs",
                operand.extent,
            );
            Value::Nothing
        }
    };
    declare(lowering, token, value);
}

// Lowers a `var`.
pub(crate) fn variable<B: Builder>(
    lowering: &mut Lowering<B>,
    flow: &Flow,
    templates: u16,
    is_typed: bool,
    init: bool,
    token: u32,
) {
    let extent = lowering.extent(token);
    let operand = if init {
        let popped = lowering.pop();
        lowering.load(popped)
    } else {
        Operand::NOTHING
    };
    let wanted = typed(lowering, is_typed);
    if templates > 0 {
        let space = lowering.pop();
        check_space(lowering, &space);
    }
    let is_known = matches!(operand.value, Value::Literal(_)) && flow.loops == 0;
    let (value, shape) = if init {
        initial(lowering, wanted, operand, extent)
    } else {
        (0, wanted.unwrap_or(Shape::None))
    };
    let local = LocalVariable {
        name: lowering.name_at(token),
        ty: lowering.type_handle(shape, extent),
        init: if init && is_known {
            Some(handle_of(value))
        } else {
            None
        },
    };
    let pointer = number_of(lowering.builder.local(local, extent));
    if init && !is_known {
        let store = Statement::Store {
            pointer: handle_of(pointer),
            value: handle_of(value),
        };
        lowering.builder.statement(store, extent);
    }
    declare(
        lowering,
        token,
        Value::Place(pointer, shape, AddressSpace::Function),
    );
}

// A function's variable must be in the `function` address space.
fn check_space<B: Builder>(lowering: &mut Lowering<B>, space: &Operand) {
    let is_function = match space.value {
        Value::Word(name) => lowering.tree.tokens.word(name) == b"function".as_slice(),
        _ => false,
    };
    if !is_function {
        let text = "invalid address space for local variable: ";
        lowering.fail(WgslError::of_name(text, space.extent, ""));
    }
}
