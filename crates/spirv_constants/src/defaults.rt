// Initial values of outputs.

use crate::constants::{ConstantTable, Constants};
use crate::known::ExpressionHandle;
use ir_arena::span::Span;
use ir_kinds::{Binding, BuiltIn, Literal, Scalar, ScalarKind};
use ir_types::{Expression, TypeInner};
use spirv_types::{TypeHandle, Types};
use spirv_words::SpirvError;
use std::alloc::Global;

// The bits of 1 as a float.
const ONE: u32 = 0x3f80_0000;

impl<C: Constants> ConstantTable<C> {
    /// The initial value of an output with this binding, or of a struct of bound members where there is none.
    pub fn default_value<T: Types>(
        &mut self,
        alloc: Global,
        types: &T,
        binding: Option<Binding>,
        ty: TypeHandle,
        span: Span,
    ) -> Result<ExpressionHandle, SpirvError> {
        let inner = types.inner(ty);
        let handle = match (binding, inner) {
            (None, Some(TypeInner::Struct { members, .. })) => {
                let mut components = Vec::new(alloc);
                for member in members {
                    let word = is_word(types.inner(member.ty));
                    let part = self.build_default(alloc, member.binding, member.ty, word, span);
                    self.failed.push(&mut components, part);
                }
                self.build(Expression::Compose { ty, components }, span)
            }
            _ => self.build_default(alloc, binding, ty, is_word(inner), span),
        };
        self.failed.answer(handle)
    }

    // The initial value of one output; the position is 0, 0, 0, 1.
    fn build_default(
        &mut self,
        alloc: Global,
        binding: Option<Binding>,
        ty: TypeHandle,
        is_word: bool,
        span: Span,
    ) -> ExpressionHandle {
        let begins = match binding {
            Some(Binding::BuiltIn(BuiltIn::Position { .. })) => {
                let zero = self.build(Expression::Literal(Literal::F32(0)), span);
                let one = self.build(Expression::Literal(Literal::F32(ONE)), span);
                let components = match Vec::from_array(alloc, [zero, zero, zero, one]) {
                    Ok(components) => components,
                    Err(_) => {
                        self.failed.fail(SpirvError::Memory);
                        Vec::new(alloc)
                    }
                };
                Expression::Compose { ty, components }
            }
            Some(Binding::BuiltIn(BuiltIn::PointSize)) => Expression::Literal(Literal::F32(ONE)),
            Some(Binding::BuiltIn(BuiltIn::SampleMask)) if is_word => {
                Expression::Literal(Literal::U32(u32::MAX))
            }
            _ => Expression::ZeroValue(ty),
        };
        self.build(begins, span)
    }
}

// Whether a type is `u32`.
fn is_word(inner: Option<&TypeInner>) -> bool {
    matches!(
        inner,
        Some(TypeInner::Scalar(Scalar {
            kind: ScalarKind::Uint,
            width: 4
        }))
    )
}
