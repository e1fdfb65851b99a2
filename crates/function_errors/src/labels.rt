//! Spans with labels.

ghost use Rattle.std.specs.Prelude.{◌≡◌, IfErr, IfOk, codes};
ghost use Rattle.function_errors.specs.Labels.{item_text, labelled};
ghost use Rattle.ir_types.specs.found.Faults.{IsSameFault, error_of, spans_of};

use ir_arena::span::Span;
use ir_types::with_span::WithSpan;
use std::alloc::AllocFailed;

/// The item at a span.
#[derive(Clone, Copy, PartialEq, Eq, Debug)]
pub enum Item {
    /// A type.
    Type,
    /// A constant.
    Constant,
    /// An override.
    Override,
    /// A global variable.
    GlobalVariable,
    /// A global expression.
    GlobalExpression,
    /// A function.
    Function,
    /// An expression of a function.
    Expression,
    /// A local variable.
    LocalVariable,
}

impl Item {
    /// The label's text.
    pub fn text(self) -> &'static str
        ensures { result.now ≡ item_text self }
    {
        match self {
            Item::Type => "this type",
            Item::Constant => "this constant",
            Item::Override => "this override",
            Item::GlobalVariable => "this global variable",
            Item::GlobalExpression => "this global expression",
            Item::Function => "this function",
            Item::Expression => "this expression",
            Item::LocalVariable => "this local variable",
        }
    }
}

/// A span of the source, with its item.
#[derive(Clone, Copy, PartialEq, Eq, Debug)]
pub struct Label {
    /// The span, which may be unknown.
    pub span: Span,
    /// The item.
    pub item: Item,
}

/// The error with a label, if there is one and its span is known.
///
/// # Errors
///
/// If out of memory, the error with the spans that it had.
pub fn with_label<E>(
    fault: WithSpan<E>,
    label: Option<Label>,
) -> Result<WithSpan<E>, AllocFailed<WithSpan<E>>>
    ensures error { IfOk result (λ f. error_of f ≡ error_of fault) }
    ensures spans { IfOk result (λ f. spans_of f ≡ labelled (spans_of fault) label) }
    ensures err { IfErr result (λ refused. IsSameFault fault refused.value) }
{
    match label {
        Some(label) => fault.with_span(label.span, label.item.text()),
        None => Ok(fault),
    }
}
