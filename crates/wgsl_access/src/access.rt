// Access to components of values and references.

use ir_kinds::{AddressSpace, Literal, SwizzleComponent, VectorSize};
use ir_types::Expression;
use wgsl_constants::Lanes;
use wgsl_expressions::{Lowering, Operand, Value, handle_of};
use wgsl_text::{Extent, WgslError};
use wgsl_types::{Builder, RowKind, Shape, vector_size};

// The base of an access: the value or pointer, its type, and the address space if it is a reference.
#[derive(Clone, Copy)]
struct Whole {
    number: u32,
    shape: Shape,
    space: Option<AddressSpace>,
}

impl Whole {
    // An access to a component of this base.
    fn part(self, number: u32, shape: Shape) -> Value {
        match self.space {
            Some(space) => Value::Place(number, shape, space),
            None => Value::Computed(number, shape),
        }
    }
}

// The component that a swizzle letter denotes.
fn component_of(letter: u8) -> Option<(SwizzleComponent, bool)> {
    match letter {
        b'x' => Some((SwizzleComponent::X, false)),
        b'y' => Some((SwizzleComponent::Y, false)),
        b'z' => Some((SwizzleComponent::Z, false)),
        b'w' => Some((SwizzleComponent::W, false)),
        b'r' => Some((SwizzleComponent::X, true)),
        b'g' => Some((SwizzleComponent::Y, true)),
        b'b' => Some((SwizzleComponent::Z, true)),
        b'a' => Some((SwizzleComponent::W, true)),
        _ => None,
    }
}

// The components that a swizzle denotes, and their number, if a vector of this size has them.
fn swizzle_of(word: &[u8], size: VectorSize) -> Option<([SwizzleComponent; 4], u32)> {
    let mut pattern = [SwizzleComponent::X; 4];
    let mut colours = None;
    let mut count: u32 = 0;
    for letter in word {
        let (component, is_colour) = component_of(*letter)?;
        if component.index() >= u32::from(size) || colours.unwrap_or(is_colour) != is_colour {
            return None;
        }
        colours = Some(is_colour);
        match pattern.get_mut(count as usize) {
            Some(place) => *place = component,
            None => return None,
        }
        count = count.saturating_add(1);
    }
    Some((pattern, count))
}

// The base of an access: pointers are dereferenced.
fn whole_of<B: Builder>(lowering: &mut Lowering<B>, operand: Operand) -> Whole {
    let (number, shape, space) = match operand.value {
        Value::Place(pointer, shape, space) => (pointer, shape, Some(space)),
        _ => {
            let (value, shape) = lowering.value(operand);
            (value, shape, None)
        }
    };
    match lowering.table.row(shape) {
        Some(row) => match (row.kind, space) {
            (RowKind::Pointer(to, into), None) => Whole {
                number,
                shape: to,
                space: Some(into),
            },
            _ => Whole {
                number,
                shape,
                space,
            },
        },
        None => Whole {
            number,
            shape,
            space,
        },
    }
}

// The element type, and the number of elements if it is fixed.
fn element_type<B: Builder>(lowering: &Lowering<B>, shape: Shape) -> Option<(Shape, Option<u32>)> {
    match shape {
        Shape::Vector(size, scalar) => Some((Shape::Scalar(scalar), Some(u32::from(size)))),
        Shape::Matrix(columns, rows, scalar) => {
            Some((Shape::Vector(rows, scalar), Some(u32::from(columns))))
        }
        _ => match lowering.table.row(shape) {
            Some(row) => match row.kind {
                RowKind::Array(element, _) | RowKind::Bindings(element) => Some((element, None)),
                _ => None,
            },
            None => None,
        },
    }
}

/// Lowers an index expression.
pub fn index<B: Builder>(lowering: &mut Lowering<B>, token: u32) {
    let popped = lowering.pop();
    let index = lowering.load(popped);
    let base = lowering.pop();
    let extent = base.extent.until(lowering.extent(token));
    let constant = match (base.value, index.value) {
        (Value::Known(place, shape), Value::Literal(_)) => Some((place, shape)),
        _ => None,
    };
    let whole = match constant {
        Some((place, shape)) => Whole {
            number: place,
            shape,
            space: None,
        },
        None => whole_of(lowering, base),
    };
    let Some((element, count)) = element_type(lowering, whole.shape) else {
        lowering.wrong("Invalid access into expression", base.extent);
        lowering.push(Operand::NOTHING);
        return;
    };
    let known = match index.value {
        Value::Literal(Literal::AbstractInt(place)) => u32::try_from(place).ok(),
        Value::Literal(Literal::I32(place)) => u32::try_from(place).ok(),
        Value::Literal(Literal::U32(place)) => Some(place),
        _ => None,
    };
    if let (Some(place), Some(count)) = (known, count) {
        if place >= count && constant.is_some() {
            lowering.wrong("Cannot access at the index", extent);
        } else if place >= count {
            lowering.wrong("Index is out of bounds", index.extent);
        }
    }
    if let Some((place, _)) = constant {
        let value = lowering.element_of(place, element, known, extent);
        lowering.push(Operand { value, extent });
        return;
    }
    let base = handle_of(whole.number);
    let access = match known {
        Some(index) => Expression::AccessIndex { base, index },
        None => {
            let index = handle_of(lowering.value(index).0);
            Expression::Access { base, index }
        }
    };
    let number = lowering.compute(access, extent);
    lowering.push(Operand {
        value: whole.part(number, element),
        extent,
    });
}

/// Lowers a member access or a swizzle.
pub fn member<B: Builder>(lowering: &mut Lowering<B>, name: u32, token: u32) {
    let base = lowering.pop();
    let name_extent = lowering.extent(token);
    let extent = base.extent.until(name_extent);
    if let Some(value) = known_member(lowering, &base, name) {
        lowering.push(Operand { value, extent });
        return;
    }
    let whole = whole_of(lowering, base);
    let value = match whole.shape {
        Shape::Vector(size, _) => components(lowering, &whole, size, name, extent),
        _ => field(lowering, &whole, name, extent),
    };
    match value {
        Some(value) => lowering.push(Operand { value, extent }),
        None => {
            lowering.fail(WgslError::of_name("invalid field accessor ", name_extent, ""));
            lowering.push(Operand::NOTHING);
        }
    }
}

// A member or a swizzle of a constant.
fn known_member<B: Builder>(
    lowering: &mut Lowering<B>,
    base: &Operand,
    name: u32,
) -> Option<Value> {
    let Value::Known(place, shape) = base.value else {
        return None;
    };
    let Some(lanes) = lowering.lanes_of(base) else {
        let RowKind::Struct(members) = lowering.table.row(shape)?.kind else {
            return None;
        };
        let (index, shape) = lowering.table.member(members, name)?;
        let known = lowering.store.element(place, index, shape)?;
        return Some(lowering.value_of(known));
    };
    let (pattern, count) = swizzle_of(lowering.tree.tokens.word(name), lanes.size?)?;
    let mut made = Lanes::of(vector_size(count), lanes.lane(0));
    for (at, component) in pattern.iter().enumerate() {
        let place = u32::try_from(at).unwrap_or(0);
        made.set(place, lanes.lane(component.index()));
    }
    let known = lowering.store.of_lanes(&made);
    Some(lowering.value_of(known))
}

// A member of a struct.
fn field<B: Builder>(
    lowering: &mut Lowering<B>,
    whole: &Whole,
    name: u32,
    extent: Extent,
) -> Option<Value> {
    let row = lowering.table.row(whole.shape)?;
    let RowKind::Struct(members) = row.kind else {
        return None;
    };
    let (index, shape) = lowering.table.member(members, name)?;
    let base = handle_of(whole.number);
    let number = lowering.compute(Expression::AccessIndex { base, index }, extent);
    Some(whole.part(number, shape))
}

// A swizzle: one letter denotes a component, more denote a new vector.
fn components<B: Builder>(
    lowering: &mut Lowering<B>,
    whole: &Whole,
    size: VectorSize,
    name: u32,
    extent: Extent,
) -> Option<Value> {
    let (pattern, count) = swizzle_of(lowering.tree.tokens.word(name), size)?;
    let scalar = whole.shape.scalar()?;
    if count == 1 {
        let index = match pattern.first() {
            Some(component) => component.index(),
            None => 0,
        };
        let base = handle_of(whole.number);
        let number = lowering.compute(Expression::AccessIndex { base, index }, extent);
        return Some(whole.part(number, Shape::Scalar(scalar)));
    }
    let size = vector_size(count)?;
    let mut vector = whole.number;
    if whole.space.is_some() {
        let pointer = handle_of(vector);
        vector = lowering.compute(Expression::Load { pointer }, extent);
    }
    let swizzle = Expression::Swizzle {
        size,
        vector: handle_of(vector),
        pattern,
    };
    let number = lowering.compute(swizzle, extent);
    Some(Value::Computed(number, Shape::Vector(size, scalar)))
}

/// `*`: the reference of a pointer.
pub fn deref<B: Builder>(lowering: &mut Lowering<B>, token: u32) {
    let popped = lowering.pop();
    let extent = lowering.extent(token).until(popped.extent);
    let pointer = lowering.load(popped);
    let value = match pointer.value {
        Value::Computed(number, shape) => match lowering.table.row(shape) {
            Some(row) => match row.kind {
                RowKind::Pointer(to, space) => Some(Value::Place(number, to, space)),
                _ => None,
            },
            None => None,
        },
        _ => None,
    };
    match value {
        Some(value) => lowering.push(Operand { value, extent }),
        None => {
            lowering.wrong("the operand of the `*` operator must be a pointer", extent);
            lowering.push(Operand::NOTHING);
        }
    }
}

/// `&`: the pointer of a reference.
pub fn address_of<B: Builder>(lowering: &mut Lowering<B>, token: u32) {
    let place = lowering.pop();
    let extent = lowering.extent(token).until(place.extent);
    match place.value {
        Value::Place(number, shape, space) => {
            let shape = lowering
                .table
                .pointer(&mut lowering.builder, shape, space, extent);
            lowering.push(Operand::computed(number, shape, extent));
        }
        _ => {
            lowering.wrong(
                "the operand of the `&` operator must be a reference",
                extent,
            );
            lowering.push(Operand::NOTHING);
        }
    }
}
