// Calls on expressions, types and special types.
use crate::told::Told;
use document_forms::Each;
use document_items::TypeForm;
use ir_arena::handle::Handle;
use ir_items::{Expression, IrType, SpecialTypes, TypeInner};
use ir_kinds::{PredeclaredType, Scalar};
use ir_types::LiteralExt;
use ir_types::laws::type_equality;
use serde_json::Value;
use std::alloc::{AllocError, Global};
use test_support::call::{found, freeing, text, told};

// Whether an expression needs no emit, whether it is a dynamic index, and whether the level of a sample uses derivatives.
fn traits_of(expression: &Expression) -> (bool, bool, Option<bool>) {
    let asks = match expression {
        Expression::ImageSample { level, .. } => Some(level.implicit_derivatives()),
        _ => None,
    };
    (
        expression.needs_pre_emit(),
        expression.is_dynamic_index(),
        asks,
    )
}

// The type of a literal.
fn inner_of(literal: &Expression) -> Option<TypeInner> {
    match literal {
        Expression::Literal(literal) => Some(literal.ty_inner()),
        _ => None,
    }
}

impl Told for Expression {
    // Whether a copy equals its source, and the copy, or the type of a literal.
    fn tell(
        &mut self,
        alloc: Global,
        source: &Self,
        _other: &Option<Self>,
        call: &Value,
    ) -> Result<String, AllocError> {
        if text(call, 0) == "literal" {
            return told(alloc, inner_of(self));
        }
        told(alloc, (*self == *source, traits_of(self)))
    }
}

impl Told for IrType {
    // The proved equality of types, for two types and a copy.
    fn tell(
        &mut self,
        alloc: Global,
        source: &Self,
        other: &Option<Self>,
        _call: &Value,
    ) -> Result<String, AllocError> {
        let is_copy = (*self == *source, type_equality(source, self));
        match other {
            Some(other) => told(alloc, (is_copy, type_equality(source, other))),
            None => told(alloc, is_copy),
        }
    }
}

// The indices of the types of two lists with equal inner types.
fn alike(
    alloc: Global,
    types: &[IrType],
    others: &[IrType],
) -> Result<Vec<(usize, usize)>, AllocError> {
    let mut pairs = Vec::new(alloc);
    for (place, one) in types.iter().enumerate() {
        for (other_place, other) in others.iter().enumerate() {
            if one.inner == other.inner {
                pairs.push((place, other_place))?;
            }
        }
    }
    Ok(pairs)
}

fn list_of(alloc: Global, call: &Value) -> Result<Vec<IrType>, AllocError> {
    match call.get(1) {
        Some(value) => Ok(found::<Each<TypeForm>>(alloc, value)?.unwrap_or(Vec::new(alloc))),
        None => Ok(Vec::new(alloc)),
    }
}

// Which types of a list have the same inner type as which of the list of a line.
fn alike_again(alloc: Global, types: &[IrType], call: &Value) -> Result<String, AllocError> {
    let others = list_of(alloc, call)?;
    freeing(told(alloc, alike(alloc, types, &others)), others)
}

/// The same, again.
pub fn of_types(alloc: Global, call: &Value) -> Result<String, AllocError> {
    let types = list_of(alloc, call)?;
    freeing(alike_again(alloc, &types, call), types)
}

// The key of the fields of `frexp`, which a line may have.
const PARTS: PredeclaredType = PredeclaredType::ModfResult {
    size: None,
    scalar: Scalar::F32,
};

// The index of the type of the fields of `frexp`, if any.
fn parts_of(special: &SpecialTypes) -> Option<usize> {
    Some(special.predeclared_types.get(&PARTS)?.index())
}

impl Told for SpecialTypes {
    // The contents of a copy of special types.
    fn tell(
        &mut self,
        alloc: Global,
        source: &Self,
        _other: &Option<Self>,
        _call: &Value,
    ) -> Result<String, AllocError> {
        let rays = (
            self.ray_desc.map(Handle::index),
            self.ray_intersection.map(Handle::index),
        );
        let predeclared = (self.predeclared_types.len(), parts_of(self));
        told(alloc, (*self == *source, rays, predeclared))
    }
}
