// The budget of what may be made from a module, so that work and memory are linear in its words.

use ir_arena::span::Span;
use ir_types::{Expression, IrType, StructMember, TypeInner};
use spirv_words::{Feature, SpirvError};

// The budget of any module, however small: what it allows is little.
const AT_LEAST: u64 = 65_536;

/// The expressions, types, members and words of names that may still be made.
#[derive(Clone, Copy)]
pub struct Budget {
    left: u64,
}

impl Budget {
    /// The budget for all functions of a module of this many words.
    pub fn of_functions(words: usize) -> Budget {
        Budget::of(words, 8)
    }

    /// The budget for its types, its constants, or its entry points.
    pub fn of_rest(words: usize) -> Budget {
        Budget::of(words, 16)
    }

    // A budget of this much a word.
    fn of(words: usize, each: u64) -> Budget {
        let words = u64::try_from(words).unwrap_or(0);
        Budget {
            left: words.saturating_mul(each).saturating_add(AT_LEAST),
        }
    }

    /// Charges this many, for the instruction at the span's word. The error is that these are too many.
    pub fn spend(&mut self, count: u64, span: Span) -> Result<(), SpirvError> {
        let left = self.left.checked_sub(count);
        self.left = left.unwrap_or(0);
        match (left, span.to_range()) {
            (Some(_), _) => Ok(()),
            (None, Some(range)) => {
                let word = u32::try_from(range.start).unwrap_or(u32::MAX);
                Err(SpirvError::untranslated(Feature::TooMuch, word))
            }
            (None, None) => Err(SpirvError::untranslated(Feature::TooMuch, 0)),
        }
    }
}

/// The number of words of a name.
pub fn words_of(name: &Option<String>) -> u64 {
    match name {
        Some(name) => u64::try_from(name.len() / 4).unwrap_or(u64::MAX),
        None => 0,
    }
}

// The cost of members and their names.
fn members_size(members: &[StructMember]) -> u64 {
    let mut size = 0u64;
    for member in members {
        size = size
            .saturating_add(1)
            .saturating_add(words_of(&member.name));
    }
    size
}

/// The cost of a type.
pub fn type_size(ty: &IrType) -> u64 {
    let inside = match &ty.inner {
        TypeInner::Struct { members, .. } => members_size(members),
        _ => 1,
    };
    inside.saturating_add(1).saturating_add(words_of(&ty.name))
}

/// The cost of an expression.
pub fn expression_size(expression: &Expression) -> u64 {
    match expression {
        Expression::Compose { components, .. } => {
            let count = u64::try_from(components.len()).unwrap_or(u64::MAX);
            count.saturating_add(1)
        }
        _ => 1,
    }
}
