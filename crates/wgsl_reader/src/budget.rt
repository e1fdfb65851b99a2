// A budget for the IR built from a text, so that work and memory are linear in the text's size.

use ir_types::{Expression, IrType, TypeInner};
use wgsl_text::{Extent, WgslError};

// The budget of any text, however short.
const AT_LEAST: u64 = 65_536;

// The budget for each token.
const A_TOKEN: u64 = 16;

// The number of expressions, types, members and statements that may still be created.
#[derive(Clone, Copy)]
pub(crate) struct Budget {
    left: u64,
}

impl Budget {
    // The budget of a text with this many tokens.
    pub(crate) fn of(tokens: usize) -> Budget {
        let tokens = u64::try_from(tokens).unwrap_or(0);
        Budget {
            left: tokens.saturating_mul(A_TOKEN).saturating_add(AT_LEAST),
        }
    }

    // Spends from the budget. It is an error if it is exceeded.
    pub(crate) fn spend(&mut self, count: u64, extent: Extent) -> Option<WgslError> {
        match self.left.checked_sub(count) {
            Some(left) => {
                self.left = left;
                None
            }
            None => Some(WgslError::unsupported(
                "more expressions, types and members than so many tokens may make",
                extent,
            )),
        }
    }
}

// The cost of an expression: 1, and 1 for each component.
pub(crate) fn expression_size(expression: &Expression) -> u64 {
    match expression {
        Expression::Compose { components, .. } => {
            u64::try_from(components.len())
                .unwrap_or(u64::MAX)
                .saturating_add(1)
        }
        _ => 1,
    }
}

// The cost of a type: 1, and 1 for each member.
pub(crate) fn type_size(ty: &IrType) -> u64 {
    match &ty.inner {
        TypeInner::Struct { members, .. } => {
            u64::try_from(members.len())
                .unwrap_or(u64::MAX)
                .saturating_add(1)
        }
        _ => 1,
    }
}
