//! Errors with labelled spans of the source.

ghost use Rattle.std.specs.Prelude.{◌≡◌, ◌++◌, [], map, string_bytes, IsTrue, IsOk, IfOk, IfErr, OnErr};
ghost use Rattle.std.specs.List.{AllPass};
ghost use Rattle.std.specs.Slice.Iter.{iter_rest};
ghost use Rattle.ir_arena.specs.found.Spans.{is_defined_span};

use crate::contexts::copy_contexts;
use ir_arena::span::Span;
use std::alloc::{AllocError, AllocFailed, Global};
use std::error::Error;
use std::fmt::{self, Display};
use std::slice;

/// A span, and the label that says what is there.
pub type SpanContext = (Span, String);

/// An error with labelled spans, each of which is defined (naga's `WithSpan`).
#[derive(PartialEq, Debug, Drop)]
pub struct WithSpan<E> {
    inner: E,
    spans: Vec<SpanContext>,
    ghost defined: { AllPass (λ context. is_defined_span context.0) spans.items },
}

impl<E> WithSpan<E> {
    ghost use Rattle.ir_types.specs.found.Faults.{error_of, spans_of, context_of, with_context, IsSameFault};

    /// The error with no span, which allocates nothing.
    pub fn new(alloc: Global, inner: E) -> Self
        ensures error { error_of result ≡ inner }
        ensures spans { spans_of result ≡ [] }
    {
        WithSpan {
            inner,
            spans: Vec::new(alloc),
        }
    }

    /// An error with the same labelled spans in memory of its own, whose inner error is a clone of
    /// this one's.
    ///
    /// # Errors
    ///
    /// Out of memory. An error without spans needs no memory beyond that of the inner clone.
    #[tactic(auto, using(crate::proofs::Known::known_alike))]
    pub fn clone(&self, alloc: Global) -> Result<Self, AllocError>
    where
        E: Clone,
        ensures error { IfOk result (λ copy. E.is_clone (error_of self.now) (error_of copy)) }
        ensures spans { IfOk result (λ copy. spans_of copy ≡ spans_of self.now) }
        ensures succeeds { E.is_infallible (error_of self.now) → spans_of self.now ≡ [] → IsOk result }
    {
        let inner = self.inner.clone()?;
        let spans = copy_contexts(alloc, &self.spans)?;
        Ok(WithSpan { inner, spans })
    }

    /// The inner error.
    pub fn as_inner(&self) -> &E
        ensures { result.now ≡ error_of self.now }
    {
        &self.inner
    }

    /// The inner error, without its spans.
    pub fn into_inner(self) -> E
        ensures { result ≡ error_of self }
    {
        let WithSpan { inner, spans: _ } = self;
        inner
    }

    /// The labelled spans, in the order in which they were added.
    pub fn spans(&self) -> slice::Iter<'_, SpanContext>
        ensures spans { map context_of (iter_rest result) ≡ spans_of self.now }
        ensures known { AllPass (λ context. is_defined_span context.0) (spans_of self.now) }
    {
        self.spans.iter()
    }

    /// Adds a span with a label. An undefined span
    /// is ignored.
    ///
    /// # Errors
    ///
    /// On out of memory, the error with the spans that it had.
    pub fn with_span(self, span: Span, description: &str) -> Result<Self, AllocFailed<Self>>
        ensures error { IfOk result (λ fault. error_of fault ≡ error_of self) }
        ensures spans { IfOk result (λ fault. spans_of fault ≡ with_context (spans_of self) span description.entry.now) }
        ensures err { IfErr result (λ refused. IsSameFault self refused.value) }
        ensures err_known { OnErr result (IsTrue (is_defined_span span)) }
    {
        if !span.is_defined() {
            return Ok(self);
        }
        match String::from_str(*self.spans.allocator(), description) {
            Ok(text) => self.with_context((span, text)),
            Err(_) => Err(AllocFailed { value: self }),
        }
    }

    /// Adds a labelled span. An undefined span is ignored.
    ///
    /// # Errors
    ///
    /// Those of [`WithSpan::with_span`].
    pub fn with_context(mut self, context: SpanContext) -> Result<Self, AllocFailed<Self>>
        ensures error { IfOk result (λ fault. error_of fault ≡ error_of self) }
        ensures spans { IfOk result (λ fault. spans_of fault ≡ with_context (spans_of self) context.0 (string_bytes context.1)) }
        ensures err { IfErr result (λ refused. IsSameFault self refused.value) }
        ensures err_known { OnErr result (IsTrue (is_defined_span context.0)) }
    {
        let (span, description) = context;
        if !span.is_defined() {
            return Ok(self);
        }
        match self.spans.push((span, description)) {
            Ok(()) => Ok(self),
            Err(_) => Err(AllocFailed { value: self }),
        }
    }

    /// Converts the inner error to another type; the spans stay.
    pub fn into_other<E2: From<E>>(self) -> WithSpan<E2>
        ensures error { E2.from_gives (error_of self) (error_of result) }
        ensures spans { spans_of result ≡ spans_of self }
    {
        let WithSpan { inner, spans } = self;
        WithSpan {
            inner: E2::from(inner),
            spans,
        }
    }

    /// Replaces the inner error by the error that `func` returns for it, with that error's spans first and then those of `self`.
    ///
    /// # Errors
    ///
    /// On out of memory, the error that `func` returned, with its own spans.
    pub fn and_then<E2, F: FnOnce(E) -> WithSpan<E2>>(
        self,
        func: F,
    ) -> Result<WithSpan<E2>, AllocFailed<WithSpan<E2>>>
        requires { F.pre func (error_of self) }
        ensures ok { IfOk result (λ fault. (made : _) × F.post func (error_of self) made × (error_of fault ≡ error_of made) × (spans_of fault ≡ spans_of made ++ spans_of self)) }
        ensures err { IfErr result (λ refused. (made : _) × F.post func (error_of self) made × IsSameFault made refused.value) }
    {
        let WithSpan { inner, mut spans } = self;
        let mut made = func(inner);
        match made.spans.append(&mut spans) {
            Ok(()) => Ok(made),
            Err(_) => Err(AllocFailed { value: made }),
        }
    }
}

impl<E: Display> Display for WithSpan<E> {
    ghost output = { λ fault. E.output fault.inner };

    /// The message of the inner error, without the spans.
    fn fmt<W: fmt::Write>(&self, f: &mut fmt::Formatter<W>) -> fmt::Result {
        self.inner.fmt(f)
    }
}

impl<E: Error> Error for WithSpan<E> {}
