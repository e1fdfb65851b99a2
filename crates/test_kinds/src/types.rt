// The types and rules of overload sets as in data. `None` if malformed.
use document_words::find_word;
use ir_kinds::{PredeclaredType, Scalar, VectorSize};
use serde_json::Value;
use test_support::call::text;
use typing_overloads::{Arguments, Conclusion, ConstructorSize, Rule, ValueType};

/// The number at an index.
pub fn number(list: &Value, place: usize) -> Option<u64> {
    list.get(place)?.as_u64()
}

fn scalar(list: &Value, place: usize) -> Option<Scalar> {
    find_word(text(list, place))
}

// The vector size at an index, as a number.
fn size(list: &Value, place: usize) -> Option<VectorSize> {
    match number(list, place) {
        Some(2) => Some(VectorSize::Bi),
        Some(3) => Some(VectorSize::Tri),
        Some(4) => Some(VectorSize::Quad),
        _ => None,
    }
}

fn typed(size: ConstructorSize, list: &Value, place: usize) -> Option<ValueType> {
    Some(ValueType {
        size,
        scalar: scalar(list, place)?,
    })
}

fn matrix_size(list: &Value) -> Option<ConstructorSize> {
    Some(ConstructorSize::Matrix {
        columns: size(list, 1)?,
        rows: size(list, 2)?,
    })
}

/// A type as in the data file.
pub fn value_type(value: &Value) -> Option<ValueType> {
    match text(value, 0) {
        "Scalar" => typed(ConstructorSize::Scalar, value, 1),
        "Vector" => typed(ConstructorSize::Vector(size(value, 1)?), value, 2),
        "Matrix" => typed(matrix_size(value)?, value, 3),
        _ => None,
    }
}

fn conclusion(value: &Value) -> Option<Conclusion> {
    match text(value, 0) {
        "ModfResult" => Some(Conclusion::Predeclared(PredeclaredType::ModfResult {
            size: size(value, 1),
            scalar: scalar(value, 2)?,
        })),
        "FrexpResult" => Some(Conclusion::Predeclared(PredeclaredType::FrexpResult {
            size: size(value, 1),
            scalar: scalar(value, 2)?,
        })),
        _ => Some(Conclusion::Value(value_type(value)?)),
    }
}

// The type at an index of a list.
fn type_at(list: &Value, place: usize) -> Option<ValueType> {
    value_type(list.get(place)?)
}

fn arguments(list: &Value) -> Option<Arguments> {
    let first = type_at(list, 0)?;
    let Some(second) = type_at(list, 1) else {
        return Some(Arguments::One(first));
    };
    let Some(third) = type_at(list, 2) else {
        return Some(Arguments::Two(first, second));
    };
    let Some(fourth) = type_at(list, 3) else {
        return Some(Arguments::Three(first, second, third));
    };
    Some(Arguments::Four(first, second, third, fourth))
}

/// A rule as in the data file.
pub fn rule(value: &Value) -> Option<Rule> {
    Some(Rule {
        arguments: arguments(value.get(0)?)?,
        conclusion: conclusion(value.get(1)?)?,
    })
}
