// Constants, overrides and variables at module scope.

use crate::attributes::{binding, find, number};
use crate::builder::ModuleBuilder;
use ir_flags::MemoryDecorations;
use ir_items::{Constant, GlobalVariable, Override};
use ir_kinds::{AddressSpace, Literal};
use wgsl_constants::Known;
use wgsl_expressions::{Declared, Lowering, Operand, Value, handle_of};
use wgsl_statements::wgsl_functions::lower_steps;
use wgsl_text::{Extent, WgslError};
use wgsl_tree::{Item, Part};
use wgsl_types::Shape;
use wgsl_words::AttributeWord;

// Reports that an initializer does not have the declared type.
fn other_type<B: ModuleBuilder>(lowering: &mut Lowering<B>, name: Extent) -> Declared {
    let text = " is expected to be of another type than its value";
    lowering.fail(WgslError::of_name("the type of ", name, text));
    Declared::Nothing
}

// A constant scalar. Its type is added to the module, unless it is abstract.
fn known_scalar<B: ModuleBuilder>(
    lowering: &mut Lowering<B>,
    literal: Literal,
    name: Extent,
) -> Declared {
    let scalar = literal.scalar();
    if !scalar.is_abstract() {
        let _ = lowering.type_handle(Shape::Scalar(scalar), name);
    }
    Declared::Literal(literal)
}

// A composite constant, which is added to the module unless its scalars are abstract.
fn composite<B: ModuleBuilder>(
    lowering: &mut Lowering<B>,
    item: &Item,
    place: u32,
    shape: Shape,
) -> Declared {
    let is_abstract = match lowering.table.leaf(shape) {
        Some(scalar) => scalar.is_abstract(),
        None => false,
    };
    if is_abstract {
        return Declared::Known(place, shape);
    }
    let extent = lowering.extent(item.token);
    let operand = Operand {
        value: Value::Known(place, shape),
        extent,
    };
    let (value, _) = lowering.value(operand);
    let constant = Constant {
        name: lowering.name_at(item.token),
        ty: lowering.type_handle(shape, extent),
        init: handle_of(value),
    };
    let number = lowering.builder.constant(constant, extent);
    Declared::Known(lowering.store.name(number, place), shape)
}

// Lowers an `override`.
pub(crate) fn overridable<B: ModuleBuilder>(
    lowering: &mut Lowering<B>,
    item: &Item,
    is_typed: bool,
    has_init: bool,
) -> Declared {
    let extent = lowering.extent(item.token);
    lower_steps(lowering, item.steps);
    let operand = if has_init {
        lowering.pop()
    } else {
        Operand::NOTHING
    };
    let wanted = if is_typed {
        let ty = lowering.pop();
        Some(lowering.type_of(&ty))
    } else {
        None
    };
    let (init, shape) = initial(lowering, operand, has_init, wanted, extent);
    let id = match find(lowering, item.attributes, AttributeWord::Id) {
        Some(attribute) => {
            let id = u16::try_from(number(lowering, &attribute)).ok();
            if id.is_none() {
                lowering.wrong("the number of an override has to be below 65536", extent);
            }
            id
        }
        None => None,
    };
    let made = Override {
        name: lowering.name_at(item.token),
        id,
        ty: lowering.type_handle(shape, extent),
        init: match init {
            Some(value) => Some(handle_of(value)),
            None => None,
        },
    };
    Declared::Override(lowering.builder.overridable(made, extent), shape)
}

// The initializer of a variable or an override, and its type.
fn initial<B: ModuleBuilder>(
    lowering: &mut Lowering<B>,
    operand: Operand,
    has_init: bool,
    wanted: Option<Shape>,
    extent: Extent,
) -> (Option<u32>, Shape) {
    match (has_init, wanted) {
        (true, Some(shape)) => (Some(lowering.value_for(operand, shape)), shape),
        (true, None) => {
            let (value, shape) = lowering.value(operand);
            (Some(value), shape)
        }
        (false, Some(shape)) => (None, shape),
        (false, None) => {
            let text = " needs a type specifier or initializer";
            lowering.fail(WgslError::of_name("declaration of ", extent, text));
            (None, Shape::None)
        }
    }
}

// Lowers the steps of a constant expression.
fn lower_constant<B: ModuleBuilder>(lowering: &mut Lowering<B>, item: &Item) {
    lowering.skips = true;
    lower_steps(lowering, item.steps);
    lowering.skips = false;
}

// Lowers a `const`.
pub(crate) fn constant<B: ModuleBuilder>(
    lowering: &mut Lowering<B>,
    item: &Item,
    is_typed: bool,
) -> Declared {
    lower_constant(lowering, item);
    let operand = lowering.pop();
    let wanted = if is_typed {
        let ty = lowering.pop();
        Some(lowering.type_of(&ty))
    } else {
        None
    };
    let name = lowering.extent(item.token);
    if lowering.known_of(&operand).is_none() {
        return not_known(lowering, operand);
    }
    let known = match wanted {
        Some(shape) => match lowering.known_for(&operand, shape) {
            Some(place) => Some(lowering.store.known(place)),
            None => None,
        },
        None => lowering.known_of(&operand),
    };
    match known {
        Some(Known::Scalar(literal)) => known_scalar(lowering, literal, name),
        Some(Known::Whole(place, shape)) => composite(lowering, item, place, shape),
        None => other_type(lowering, name),
    }
}

// Reports that an initializer is not a constant expression.
fn not_known<B: ModuleBuilder>(lowering: &mut Lowering<B>, operand: Operand) -> Declared {
    let loaded = lowering.load(operand);
    lowering.wrong("Unexpected override-expression", loaded.extent);
    Declared::Nothing
}

// Lowers a `const_assert`.
pub(crate) fn assertion<B: ModuleBuilder>(lowering: &mut Lowering<B>, item: &Item) -> Declared {
    lower_constant(lowering, item);
    let operand = lowering.pop();
    match operand.value {
        Value::Literal(Literal::Bool(true)) => {}
        Value::Literal(Literal::Bool(false)) => {
            lowering.wrong("`const_assert` failure", operand.extent);
        }
        Value::Literal(_) => lowering.wrong(
            "must be a const-expression that resolves to a `bool`",
            operand.extent,
        ),
        _ => lowering.unsupported("a `const_assert` of this", operand.extent),
    }
    Declared::Nothing
}

// The address space of a variable: from its template arguments, else `Handle`.
fn space_of<B: ModuleBuilder>(lowering: &mut Lowering<B>, templates: &[Operand]) -> AddressSpace {
    match templates.first() {
        Some(space) => lowering.space(space, templates.get(1)),
        None => AddressSpace::Handle,
    }
}

// The memory decorations of a variable.
fn decorations<B: ModuleBuilder>(lowering: &Lowering<B>, part: Part) -> MemoryDecorations {
    let mut set = 0;
    if find(lowering, part, AttributeWord::Coherent).is_some() {
        set |= MemoryDecorations::COHERENT.0;
    }
    if find(lowering, part, AttributeWord::Volatile).is_some() {
        set |= MemoryDecorations::VOLATILE.0;
    }
    MemoryDecorations(set)
}

// Lowers a global `var`.
pub(crate) fn variable<B: ModuleBuilder>(
    lowering: &mut Lowering<B>,
    item: &Item,
    templates: u16,
    is_typed: bool,
    has_init: bool,
) -> Declared {
    let extent = lowering.extent(item.token);
    lower_steps(lowering, item.steps);
    let operand = if has_init {
        lowering.pop()
    } else {
        Operand::NOTHING
    };
    let wanted = if is_typed {
        let ty = lowering.pop();
        Some(lowering.type_of(&ty))
    } else {
        None
    };
    let given = lowering.take(u32::from(templates));
    let space = space_of(lowering, &given);
    let (init, shape) = initial(lowering, operand, has_init, wanted, extent);
    let variable = GlobalVariable {
        name: lowering.name_at(item.token),
        space,
        binding: binding(lowering, item.attributes),
        ty: lowering.type_handle(shape, extent),
        init: match init {
            Some(value) => Some(handle_of(value)),
            None => None,
        },
        memory_decorations: decorations(lowering, item.attributes),
    };
    let number = lowering.builder.variable(variable, extent);
    Declared::Variable(number, shape, space)
}
