// The predeclared result structs of some expressions.

use crate::lowering::Lowering;
use crate::writing::{Writing, made_in, type_in};
use ir_arena::span::Span;
use ir_kinds::{PredeclaredType, ScalarKind};
use ir_types::{IrType, StructMember, TypeInner};
use spirv_declarations::Knowledge;
use spirv_expressions::{Builder, Emits, keep};
use spirv_math::{Pair, pair_of};
use spirv_types::{TypeHandle, Types};
use std::alloc::{AllocError, Global};

// The name of an expression's result struct.
fn name_of(alloc: Global, of: PredeclaredType) -> Result<String, AllocError> {
    let (function, size, scalar) = match of {
        PredeclaredType::ModfResult { size, scalar } => ("modf", size, scalar),
        PredeclaredType::FrexpResult { size, scalar } => ("frexp", size, scalar),
        PredeclaredType::AtomicCompareExchangeWeakResult(scalar) => {
            let kind = match scalar.kind {
                ScalarKind::Sint => "Sint",
                ScalarKind::Uint => "Uint",
                _ => "Float",
            };
            let width = scalar.width;
            return format!(in alloc; "__atomic_compare_exchange_result<{kind},{width}>");
        }
    };
    let bits = u32::from(scalar.width) * 8;
    match size {
        Some(size) => {
            let count = u32::from(size);
            format!(in alloc; "__{function}_result_vec{count}_f{bits}")
        }
        None => format!(in alloc; "__{function}_result_f{bits}"),
    }
}

impl<K: Knowledge, T: Types, W: Writing> Lowering<K, T, W> {
    /// The result struct of an expression, built once.
    pub fn special_type(&mut self, of: PredeclaredType) -> TypeHandle {
        if let Some(handle) = self.names.special(of) {
            return handle;
        }
        let Pair {
            names: [first, second],
            types: [fraction, rest],
            offset,
        } = pair_of(of);
        let of_second = self.vector(rest.0, rest.1);
        let of_first = self.vector(fraction.0, fraction.1);
        let mut members = Vec::new(self.alloc);
        self.add_member(&mut members, first, of_first, 0);
        self.add_member(&mut members, second, of_second, offset);
        let span = offset.saturating_mul(2);
        let inner = TypeInner::Struct { members, span };
        let name = name_of(self.alloc, of);
        let name = made_in(&mut self.body, name);
        let made = self.built.insert(IrType { name, inner }, Span::UNDEFINED);
        let handle = type_in(&mut self.body, made);
        if let Err(error) = self.names.set_special(of, handle) {
            self.body.fail(error);
        }
        handle
    }

    // A member more.
    fn add_member(
        &mut self,
        members: &mut Vec<StructMember>,
        name: &str,
        ty: TypeHandle,
        offset: u32,
    ) {
        let name = String::from_str(self.alloc, name);
        let member = StructMember {
            name: made_in(&mut self.body, name),
            ty,
            binding: None,
            offset,
        };
        keep(&mut self.body, members, member);
    }
}
