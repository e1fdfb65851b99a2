// The types that the rules of functions conclude in a module.
use crate::given::scalar;
use ir_items::SpecialTypes;
use ir_kinds::PredeclaredType;
use serde_json::Value;
use spec_expressions::ConclusionExt;
use std::alloc::{AllocError, Global};
use test_support::call::{text, told};
use typing_rules::{Conclusion, ConstructorSize, ValueType};

/// The predeclared type of a scalar that a line names.
pub fn predeclared(call: &Value) -> Option<PredeclaredType> {
    let scalar = scalar(call, 2);
    let size = None;
    match text(call, 1) {
        "ModfResult" => Some(PredeclaredType::ModfResult { size, scalar }),
        "FrexpResult" => Some(PredeclaredType::FrexpResult { size, scalar }),
        _ => None,
    }
}

// The conclusion that a line names.
fn conclusion(call: &Value) -> Conclusion {
    match predeclared(call) {
        Some(key) => Conclusion::Predeclared(key),
        None => Conclusion::Value(ValueType {
            size: ConstructorSize::Scalar,
            scalar: scalar(call, 2),
        }),
    }
}

/// The type of a conclusion with these special types.
pub fn of_conclusion(
    alloc: Global,
    special: &SpecialTypes,
    call: &Value,
) -> Result<String, AllocError> {
    told(alloc, conclusion(call).into_resolution(special))
}
