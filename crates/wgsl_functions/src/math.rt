// Calls of math functions: their overload sets determine the accepted argument types and the result type.

use crate::evaluated::known_math;
use ir_kinds::MathFunction;
use ir_types::{Expression, TypeInner};
use std::alloc::{AllocError, Global};
use typing_overloads::{
    Conclusion, ConstructorSize, MathFunctionExt, OverloadSet, Rule, ValueType,
};
use wgsl_effects::result_struct;
use wgsl_expressions::{Lowering, Operand, Value, handle_of};
use wgsl_text::{Extent, Failure, WgslError};
use wgsl_types::{Builder, ExpressionHandle, Shape};

// The overload selected for the arguments, or the index of the argument after which none remains.
enum Chosen {
    Rule(Rule),
    // no overload accepts the type of this argument
    Wrong(usize),
    // an overload does, but not with the arguments before it
    Inconsistent(usize),
}

static WRONG_TYPES: [&str; 4] = [
    "wrong type passed as argument #1 to ",
    "wrong type passed as argument #2 to ",
    "wrong type passed as argument #3 to ",
    "wrong type passed as argument #4 to ",
];

static INCONSISTENT_TYPES: [&str; 4] = [
    "inconsistent type passed as argument #1 to ",
    "inconsistent type passed as argument #2 to ",
    "inconsistent type passed as argument #3 to ",
    "inconsistent type passed as argument #4 to ",
];

// The type of an argument for the overload sets: without a scalar, a type that no rule accepts.
fn inner_of(shape: Shape) -> TypeInner {
    match shape {
        Shape::Scalar(scalar) => TypeInner::Scalar(scalar),
        Shape::Vector(size, scalar) => TypeInner::Vector { size, scalar },
        Shape::Matrix(columns, rows, scalar) => TypeInner::Matrix {
            columns,
            rows,
            scalar,
        },
        _ => TypeInner::Sampler { comparison: false },
    }
}

// The type of a value.
fn shape_of(of: ValueType) -> Shape {
    match of.size {
        ConstructorSize::Scalar => Shape::Scalar(of.scalar),
        ConstructorSize::Vector(size) => Shape::Vector(size, of.scalar),
        ConstructorSize::Matrix { columns, rows } => Shape::Matrix(columns, rows, of.scalar),
    }
}

// The type of an argument, which may be abstract.
fn argument_shape(argument: &Operand) -> Shape {
    match argument.value {
        Value::Literal(literal) => Shape::Scalar(literal.scalar()),
        Value::Known(_, shape) | Value::Override(_, shape) | Value::Computed(_, shape) => shape,
        _ => Shape::None,
    }
}

// The preferred overload without abstract types for these argument types. The error is out of memory.
fn choose(alloc: Global, fun: MathFunction, given: &[Shape]) -> Result<Chosen, AllocError> {
    let mut rules = fun.overloads(alloc)?;
    for (place, shape) in given.iter().enumerate() {
        let inner = inner_of(*shape);
        rules = rules.arg(alloc, place, &inner)?;
        if rules.is_empty() {
            let alone = fun.overloads(alloc)?.arg(alloc, place, &inner)?;
            return Ok(if alone.is_empty() {
                Chosen::Wrong(place)
            } else {
                Chosen::Inconsistent(place)
            });
        }
    }
    let concrete = rules.concrete_only();
    if concrete.is_empty() {
        return Ok(Chosen::Wrong(0));
    }
    Ok(Chosen::Rule(concrete.most_preferred()))
}

// The overload of a call, or `None` after an error.
fn rule_of<B: Builder>(
    lowering: &mut Lowering<B>,
    fun: MathFunction,
    arguments: &[Operand],
    extent: Extent,
) -> Option<Rule> {
    let count = fun.argument_count();
    if arguments.len() < count {
        lowering.wrong("wrong number of arguments", extent);
        return None;
    }
    if arguments.len() > count {
        let error = WgslError::of_name("too many arguments passed to ", extent, "");
        lowering.fail(error);
        return None;
    }
    let mut given = Vec::new(lowering.alloc);
    let mut failed = Failure::NONE;
    for argument in arguments {
        failed.push(&mut given, argument_shape(argument));
    }
    lowering.join(&failed);
    let (texts, place) = match choose(lowering.alloc, fun, &given) {
        Ok(Chosen::Rule(rule)) => return Some(rule),
        Ok(Chosen::Wrong(place)) => (&WRONG_TYPES, place),
        Ok(Chosen::Inconsistent(place)) => (&INCONSISTENT_TYPES, place),
        Err(_) => {
            lowering.fail(WgslError::MEMORY);
            return None;
        }
    };
    let text = texts.get(place).copied().unwrap_or("wrong type passed to ");
    lowering.fail(WgslError::of_name(text, extent, ""));
    None
}

// The handle of an optional argument.
fn optional(number: Option<&u32>) -> Option<ExpressionHandle> {
    match number {
        Some(number) => Some(handle_of(*number)),
        None => None,
    }
}

// Lowers a call of a math function.
pub(crate) fn math<B: Builder>(
    lowering: &mut Lowering<B>,
    fun: MathFunction,
    arguments: &[Operand],
    extent: Extent,
) -> Operand {
    let Some(rule) = rule_of(lowering, fun, arguments, extent) else {
        return Operand::NOTHING;
    };
    if let Some(known) = known_math(lowering, fun, arguments, extent) {
        return known;
    }
    let mut values = Vec::new(lowering.alloc);
    let mut failed = Failure::NONE;
    for (place, argument) in arguments.iter().enumerate() {
        let value = match rule.arguments.get(place) {
            Some(wanted) => lowering.value_as(*argument, wanted.scalar).0,
            None => lowering.value(*argument).0,
        };
        failed.push(&mut values, value);
    }
    lowering.join(&failed);
    let shape = match rule.conclusion {
        Conclusion::Value(made) => shape_of(made),
        Conclusion::Predeclared(of) => result_struct(lowering, of, extent),
    };
    let call = Expression::Math {
        fun,
        arg: handle_of(values.first().copied().unwrap_or(0)),
        arg1: optional(values.get(1)),
        arg2: optional(values.get(2)),
        arg3: optional(values.get(3)),
    };
    Operand::computed(lowering.compute(call, extent), shape, extent)
}
