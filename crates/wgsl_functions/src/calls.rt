// Calls of functions of the module, and of built-in functions.

use crate::constructors::{construct, infer};
use crate::evaluated::{known_relational, known_select};
use crate::math::math;
use ir_arena::handle::Handle;
use ir_blocks::Statement;
use ir_flags::{Barrier, Capabilities};
use ir_kinds::{Scalar, ScalarKind};
use ir_types::Expression;
use wgsl_builtins::FunctionWord;
use wgsl_effects::{cooperative_load, lower_effect};
use wgsl_expressions::{FunctionEntry, Lowering, Operand, Value, handle_of};
use wgsl_images::lower_texture;
use wgsl_text::{Extent, Failure, WgslError};
use wgsl_types::{Builder, Shape};

// The common scalar of a built-in function's arguments.
fn argument_scalar<B: Builder>(
    lowering: &Lowering<B>,
    arguments: &[Operand],
    integers: bool,
) -> Scalar {
    let mut found = if integers { Scalar::I32 } else { Scalar::F32 };
    for argument in arguments {
        match lowering.scalar_of(argument) {
            Some(scalar) if scalar == Scalar::ABSTRACT_FLOAT => found = Scalar::F32,
            Some(scalar) if !scalar.is_abstract() => return scalar,
            _ => {}
        }
    }
    found
}

// The expressions of arguments, converted to this scalar if there is a conversion, and the type of the first.
fn values<B: Builder>(
    lowering: &mut Lowering<B>,
    arguments: &[Operand],
    to: Scalar,
) -> (Vec<u32>, Shape) {
    let mut values = Vec::new(lowering.alloc);
    let mut failed = Failure::NONE;
    let mut first = Shape::None;
    for argument in arguments {
        let (value, shape) = lowering.value_as(*argument, to);
        if first == Shape::None {
            first = shape;
        }
        failed.push(&mut values, value);
    }
    lowering.join(&failed);
    (values, first)
}

// Reports a wrong number of arguments.
fn check_count<B: Builder>(
    lowering: &mut Lowering<B>,
    arguments: &[Operand],
    count: usize,
    extent: Extent,
) -> bool {
    let is_right = arguments.len() == count;
    if !is_right {
        lowering.wrong("wrong number of arguments", extent);
    }
    is_right
}

// `select`, whose first argument is the value for `false`.
fn select<B: Builder>(
    lowering: &mut Lowering<B>,
    arguments: &[Operand],
    extent: Extent,
) -> Operand {
    if !check_count(lowering, arguments, 3, extent) {
        return Operand::NOTHING;
    }
    if let Some(known) = known_select(lowering, arguments, extent) {
        return known;
    }
    let choices = arguments.get(..2).unwrap_or(&[]);
    let scalar = argument_scalar(lowering, choices, true);
    let (values, shape) = values(lowering, choices, scalar);
    let condition = match arguments.get(2) {
        Some(condition) => lowering.value(*condition).0,
        None => 0,
    };
    let select = Expression::Select {
        condition: handle_of(condition),
        accept: handle_of(values.get(1).copied().unwrap_or(0)),
        reject: handle_of(values.first().copied().unwrap_or(0)),
    };
    Operand::computed(lowering.compute(select, extent), shape, extent)
}

// The expression and type of a function's only argument.
fn only<B: Builder>(
    lowering: &mut Lowering<B>,
    arguments: &[Operand],
    extent: Extent,
) -> (u32, Shape) {
    match arguments.first() {
        Some(first) if arguments.len() == 1 => lowering.value(*first),
        _ => {
            lowering.wrong("wrong number of arguments", extent);
            (0, Shape::None)
        }
    }
}

// Lowers a call of a built-in function.
fn built_in<B: Builder>(
    lowering: &mut Lowering<B>,
    word: FunctionWord,
    arguments: &[Operand],
    is_statement: bool,
    extent: Extent,
) -> Operand {
    match word {
        FunctionWord::Math(function) => math(lowering, function, arguments, extent),
        FunctionWord::Select => select(lowering, arguments, extent),
        FunctionWord::Texture(function) => lower_texture(lowering, function, arguments, extent),
        FunctionWord::Relational(fun) => {
            if let Some(known) = known_relational(lowering, fun, arguments, extent) {
                return known;
            }
            let argument = handle_of(only(lowering, arguments, extent).0);
            let relational = Expression::Relational { fun, argument };
            let number = lowering.compute(relational, extent);
            Operand::computed(number, Shape::Scalar(Scalar::BOOL), extent)
        }
        FunctionWord::ArrayLength => {
            let array = handle_of(only(lowering, arguments, extent).0);
            let number = lowering.compute(Expression::ArrayLength(array), extent);
            Operand::computed(number, Shape::Scalar(Scalar::U32), extent)
        }
        FunctionWord::Derivative(axis, ctrl) => {
            let (value, shape) = only(lowering, arguments, extent);
            let expr = handle_of(value);
            let number = lowering.compute(Expression::Derivative { axis, ctrl, expr }, extent);
            Operand::computed(number, shape, extent)
        }
        FunctionWord::Barrier(barrier) => {
            check_count(lowering, arguments, 0, extent);
            if barrier == Barrier::SUB_GROUP {
                lowering.builder.require(Capabilities::SUBGROUP);
                lowering.builder.require(Capabilities::SUBGROUP_BARRIER);
            }
            lowering
                .builder
                .statement(Statement::ControlBarrier(barrier), extent);
            Operand {
                value: Value::Nothing,
                extent,
            }
        }
        FunctionWord::Effect(word) => lower_effect(lowering, word, arguments, is_statement, extent),
        FunctionWord::Bitcast | FunctionWord::CooperativeLoad(_) => {
            let text = " needs a template argument specified: `T`, a type";
            lowering.fail(WgslError::of_name("", extent, text));
            Operand::NOTHING
        }
    }
}

// `bitcast`.
fn bitcast<B: Builder>(
    lowering: &mut Lowering<B>,
    to: Shape,
    arguments: &[Operand],
    extent: Extent,
) -> Operand {
    if let Some(first) = arguments.first() {
        if lowering.known_of(first).is_some() && lowering.builder.is_global() {
            lowering.wrong(
                "Not implemented as constant expression: bitcast built-in function",
                extent,
            );
        }
    }
    let (value, _) = only(lowering, arguments, extent);
    let kind = match to.scalar() {
        Some(scalar) => scalar.kind,
        None => ScalarKind::Uint,
    };
    let cast = Expression::As {
        expr: handle_of(value),
        kind,
        convert: None,
    };
    Operand::computed(lowering.compute(cast, extent), to, extent)
}

// Lowers a call of a function of the module.
fn function<B: Builder>(
    lowering: &mut Lowering<B>,
    entry: FunctionEntry,
    arguments: &[Operand],
    extent: Extent,
) -> Operand {
    let Some(number) = entry.number else {
        lowering.wrong("entry points cannot be called", extent);
        return Operand::NOTHING;
    };
    if lowering.builder.is_global() {
        lowering.wrong("this operation is not supported in a const context", extent);
        return Operand::NOTHING;
    }
    let mut values = Vec::new(lowering.alloc);
    let mut failed = Failure::NONE;
    let mut place = entry.arguments.start;
    for argument in arguments {
        let wanted = match lowering.arguments.get(place as usize) {
            Some(shape) if place < entry.arguments.end => *shape,
            _ => Shape::None,
        };
        let value = lowering.value_for(*argument, wanted);
        failed.push(&mut values, handle_of(value));
        place = place.saturating_add(1);
    }
    lowering.join(&failed);
    let function = Handle::at(number.min(4_294_967_294) as usize);
    let has_result = entry.gives != Shape::None;
    let number = if has_result {
        lowering.place(Expression::CallResult(function), extent)
    } else {
        0
    };
    let answer = if has_result {
        Some(handle_of(number))
    } else {
        None
    };
    let call = Statement::Call {
        function,
        arguments: values,
        result: answer,
    };
    lowering.builder.statement(call, extent);
    if has_result {
        return Operand::computed(number, entry.gives, extent);
    }
    Operand {
        value: Value::Nothing,
        extent,
    }
}

/// Lowers a call with this many arguments, which is a statement, or whose result is used.
pub fn lower_call<B: Builder>(
    lowering: &mut Lowering<B>,
    count: u32,
    is_statement: bool,
    token: u32,
) {
    let arguments = loaded(lowering, count);
    let callee = lowering.pop();
    let extent = callee.extent.until(lowering.extent(token));
    let made = match callee.value {
        Value::Type(shape) => construct(lowering, shape, &arguments, extent),
        Value::Maker(maker) => infer(lowering, maker, &arguments, extent),
        Value::Function(entry) => function(lowering, entry, &arguments, extent),
        Value::BuiltIn(word) => {
            built_in(lowering, word, &arguments, is_statement, callee.extent)
        }
        Value::Bitcast(to) => bitcast(lowering, to, &arguments, extent),
        Value::CooperativeLoad(of, row_major) => {
            cooperative_load(lowering, of, row_major, &arguments, callee.extent)
        }
        Value::Word(name) => {
            lowering.undefined(name, callee.extent);
            Operand::NOTHING
        }
        _ => {
            lowering.fail(WgslError::of_name("", callee.extent, " is not a function"));
            Operand::NOTHING
        }
    };
    lowering.push(Operand {
        value: made.value,
        extent,
    });
}

// Pops operands and loads those that are references.
fn loaded<B: Builder>(lowering: &mut Lowering<B>, count: u32) -> Vec<Operand> {
    let mut arguments = lowering.take(count);
    for place in 0..arguments.len() {
        let operand = arguments.get(place).copied().unwrap_or(Operand::NOTHING);
        let loaded = lowering.load(operand);
        if let Some(argument) = arguments.get_mut(place) {
            *argument = loaded;
        }
    }
    arguments
}
