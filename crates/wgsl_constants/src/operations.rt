// Constant evaluation of operators and built-in functions on scalars and vectors.

use crate::lanes::{Evaluated, Lanes, Making};
use ir_kinds::{
    BinaryOperator, Literal, MathFunction, RelationalFunction, UnaryOperator, VectorSize,
};
use wgsl_types::is_comparison;
use wgsl_values::{Folded, fold_binary, fold_math, fold_unary};

/// Evaluates a unary operator on each component.
pub fn negate(operator: UnaryOperator, value: &Lanes) -> Evaluated {
    let mut making = Making::of(value.size);
    for place in 0..value.count() {
        making.take(place, fold_unary(operator, value.lane(place)));
    }
    making.end()
}

// The size of the result of two operands, if they agree: a scalar is splatted.
fn size_of(left: &Lanes, right: &Lanes) -> Option<Option<VectorSize>> {
    match (left.size, right.size) {
        (Some(size), Some(other)) if size == other => Some(Some(size)),
        (Some(_), Some(_)) => None,
        (Some(size), None) | (None, Some(size)) => Some(Some(size)),
        (None, None) => Some(None),
    }
}

/// Evaluates a binary operator by component.
pub fn combine(operator: BinaryOperator, left: &Lanes, right: &Lanes) -> Evaluated {
    let Some(size) = size_of(left, right) else {
        return Evaluated::Open;
    };
    if left.size != right.size && is_comparison(operator) {
        return Evaluated::Open;
    }
    let mut making = Making::of(size);
    let count = match size {
        Some(size) => u32::from(size),
        None => 1,
    };
    for place in 0..count {
        making.take(
            place,
            fold_binary(operator, left.lane(place), right.lane(place)),
        );
    }
    making.end()
}

/// Evaluates a built-in function of up to three arguments by component.
pub fn functions(
    function: MathFunction,
    first: &Lanes,
    second: Option<Lanes>,
    third: Option<Lanes>,
) -> Evaluated {
    let mut making = Making::of(first.size);
    for place in 0..first.count() {
        let value = first.lane(place);
        let folded = match (second, third) {
            (Some(second), Some(third)) => {
                let (other, last) = (second.lane(place), third.lane(place));
                fold_math(function, &[value, other, last])
            }
            (Some(second), None) => fold_math(function, &[value, second.lane(place)]),
            _ => fold_math(function, &[value]),
        };
        let same = match (second, third) {
            (Some(second), Some(third)) => { second.size == first.size && third.size == first.size }
            (Some(second), None) => second.size == first.size,
            _ => true,
        };
        making.take(place, if same { folded } else { Folded::Open });
    }
    making.end()
}

// `length`: the square root of the sum of the squares of the components.
fn length(value: &Lanes) -> Folded {
    if value.size.is_none() {
        return fold_math(MathFunction::Abs, &[value.lane(0)]);
    }
    match products(value, value) {
        Folded::Made(sum) => fold_math(MathFunction::Sqrt, &[sum]),
        Folded::Wrong(_) => Folded::Wrong("length operation overflowed"),
        Folded::Open => Folded::Open,
    }
}

// A component of the cross product, from the components at two indices.
fn crossed(left: &Lanes, right: &Lanes, first: u32, second: u32) -> Folded {
    let one = fold_binary(
        BinaryOperator::Multiply,
        left.lane(first),
        right.lane(second),
    );
    let other = fold_binary(
        BinaryOperator::Multiply,
        left.lane(second),
        right.lane(first),
    );
    match (one, other) {
        (Folded::Made(one), Folded::Made(other)) => {
            fold_binary(BinaryOperator::Subtract, one, other)
        }
        _ => Folded::Open,
    }
}

// The cross product of two vectors of three components.
fn cross(left: &Lanes, right: &Lanes) -> Evaluated {
    if left.size != Some(VectorSize::Tri) || right.size != Some(VectorSize::Tri) {
        return Evaluated::Open;
    }
    let mut making = Making::of(left.size);
    making.take(0, crossed(left, right, 1, 2));
    making.take(1, crossed(left, right, 2, 0));
    making.take(2, crossed(left, right, 0, 1));
    making.end()
}

// A scalar result.
fn scalar_of(folded: Folded) -> Evaluated {
    match folded {
        Folded::Made(literal) => Evaluated::Made(Lanes::of_scalar(literal)),
        Folded::Wrong(text) => Evaluated::Wrong(text),
        Folded::Open => Evaluated::Open,
    }
}

// Whether a float is zero.
fn is_zero(literal: Literal) -> bool {
    match literal {
        Literal::AbstractFloat(bits) => bits & 0x7fff_ffff_ffff_ffff == 0,
        Literal::F64(bits) => bits & 0x7fff_ffff_ffff_ffff == 0,
        Literal::F32(bits) => bits & 0x7fff_ffff == 0,
        Literal::F16(bits) => bits & 0x7fff == 0,
        _ => false,
    }
}

// `normalize` of a vector.
fn normalize(value: &Lanes) -> Evaluated {
    match length(value) {
        Folded::Made(long) if is_zero(long) => {
            Evaluated::Wrong("normalize built-in function argument is out of valid range")
        }
        Folded::Made(long) => combine(BinaryOperator::Divide, value, &Lanes::of_scalar(long)),
        Folded::Wrong(_) => Evaluated::Wrong("normalize operation overflowed"),
        Folded::Open => Evaluated::Open,
    }
}

/// Evaluates a built-in function of one or two whole vectors.
pub fn geometric(function: MathFunction, first: &Lanes, second: Option<Lanes>) -> Evaluated {
    match (function, second) {
        (MathFunction::Dot, Some(second)) => dot(first, &second),
        (MathFunction::Cross, Some(second)) => cross(first, &second),
        (MathFunction::Length, None) => scalar_of(length(first)),
        (MathFunction::Distance, Some(second)) => {
            match combine(BinaryOperator::Subtract, first, &second) {
                Evaluated::Made(between) => scalar_of(length(&between)),
                other => other,
            }
        }
        (MathFunction::Normalize, None) => normalize(first),
        _ => Evaluated::Open,
    }
}

// The sum of the products of two vectors' components.
fn products(left: &Lanes, right: &Lanes) -> Folded {
    let mut sum = fold_binary(BinaryOperator::Multiply, left.lane(0), right.lane(0));
    for place in 1..left.count() {
        let product = fold_binary(
            BinaryOperator::Multiply,
            left.lane(place),
            right.lane(place),
        );
        sum = match (sum, product) {
            (Folded::Made(sum), Folded::Made(product)) => {
                fold_binary(BinaryOperator::Add, sum, product)
            }
            (Folded::Wrong(text), _) => Folded::Wrong(text),
            (_, Folded::Wrong(text)) => Folded::Wrong(text),
            _ => Folded::Open,
        };
    }
    sum
}

// The dot product of two vectors.
fn dot(left: &Lanes, right: &Lanes) -> Evaluated {
    if left.size.is_none() || left.size != right.size {
        return Evaluated::Open;
    }
    match products(left, right) {
        Folded::Made(literal) => Evaluated::Made(Lanes::of_scalar(literal)),
        Folded::Wrong(_) => Evaluated::Wrong("in dot built-in operation overflowed"),
        Folded::Open => Evaluated::Open,
    }
}

/// `select`: the components of one value or the other, by bools.
pub fn select(reject: &Lanes, accept: &Lanes, condition: &Lanes) -> Evaluated {
    if reject.size != accept.size || reject.scalar() != accept.scalar() {
        return Evaluated::Open;
    }
    if condition.size.is_some() && condition.size != reject.size {
        return Evaluated::Open;
    }
    let mut made = *reject;
    for place in 0..reject.count() {
        match condition.lane(place) {
            Literal::Bool(true) => made.set(place, accept.lane(place)),
            Literal::Bool(false) => {}
            _ => return Evaluated::Open,
        }
    }
    Evaluated::Made(made)
}

/// `all` or `any` of the components.
pub fn every(function: RelationalFunction, value: &Lanes) -> Evaluated {
    let wants_all = match function {
        RelationalFunction::All => true,
        RelationalFunction::Any => false,
        _ => return Evaluated::Open,
    };
    let mut holds = wants_all;
    for place in 0..value.count() {
        match value.lane(place) {
            Literal::Bool(lane) => {
                if lane != wants_all {
                    holds = lane;
                }
            }
            _ => return Evaluated::Open,
        }
    }
    Evaluated::Made(Lanes::of_scalar(Literal::Bool(holds)))
}
