// The JSON form of literals: a scalar type and a value.
ghost use Rattle.std.specs.Prelude.{◌≡◌, option_map};
ghost use Rattle.serde_json.specs.View.{items_view};
ghost use Rattle.ir_kinds.specs.declared.values.Literal.{Literal};
ghost use Rattle.document_forms.specs.found.Answers.{Answers};
ghost use Rattle.document_expressions.specs.found.Expressions.{literal_with, a_literal};

use crate::kinds::LiteralKind;
use document_forms::{I16, I32, I64, ReadError, Row, Truth, U16, U32, U64, split_tag};
use ir_kinds::Literal;
use serde_json::Value;
use std::alloc::Global;

// Decodes the literal of a scalar type, whose value has the index `index`.
#[tactic(auto, unfolding(crate::specs::found::Expressions::literal_with))]
fn by_kind(
    alloc: Global,
    kind: LiteralKind,
    rest: &[Value],
    index: usize,
) -> Result<Literal, ReadError>
    ensures { Answers result (λ found. found ≡ literal_with kind (items_view rest.now)) }
{
    match kind {
        LiteralKind::Bool => Ok(Literal::Bool(<(Truth,) as Row>::read(alloc, rest, index)?.0)),
        LiteralKind::I16 => Ok(Literal::I16(<(I16,) as Row>::read(alloc, rest, index)?.0)),
        LiteralKind::U16 => Ok(Literal::U16(<(U16,) as Row>::read(alloc, rest, index)?.0)),
        LiteralKind::I32 => Ok(Literal::I32(<(I32,) as Row>::read(alloc, rest, index)?.0)),
        LiteralKind::U32 => Ok(Literal::U32(<(U32,) as Row>::read(alloc, rest, index)?.0)),
        LiteralKind::I64 => Ok(Literal::I64(<(I64,) as Row>::read(alloc, rest, index)?.0)),
        LiteralKind::U64 => Ok(Literal::U64(<(U64,) as Row>::read(alloc, rest, index)?.0)),
        LiteralKind::F16 => Ok(Literal::F16(<(U16,) as Row>::read(alloc, rest, index)?.0)),
        LiteralKind::F32 => Ok(Literal::F32(<(U32,) as Row>::read(alloc, rest, index)?.0)),
        LiteralKind::F64 => Ok(Literal::F64(<(U64,) as Row>::read(alloc, rest, index)?.0)),
        LiteralKind::AbstractInt => Ok(Literal::AbstractInt(
            <(I64,) as Row>::read(alloc, rest, index)?.0,
        )),
        LiteralKind::AbstractFloat => Ok(Literal::AbstractFloat(
            <(U64,) as Row>::read(alloc, rest, index)?.0,
        )),
    }
}

/// The JSON form of a literal: the word of its scalar type, and its value in the range of that type. A float is encoded as
/// its bits, an unsigned integer.
pub struct LiteralRow;

impl Row for LiteralRow {
    type Items = Literal;

    ghost Plain = { Literal };

    ghost view = { λ l. l };

    ghost form = { a_literal };

    fn read(alloc: Global, items: &[Value], index: usize) -> Result<Literal, ReadError> {
        let (kind, rest) = split_tag(items, index)?;
        by_kind(alloc, kind, rest, index.saturating_add(1))
    }
}
