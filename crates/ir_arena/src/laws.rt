//! Laws of handles and spans. These functions do nothing: their contracts are the laws.

ghost use Rattle.std.specs.Prelude.{◌≡◌, ◌==◌};
ghost use Rattle.std.specs.Ordering.{nat_cmp};
ghost use Rattle.ir_arena.specs.found.Spans.{joined_span, undefined_span};

use crate::handle::{Handle, NonMaxU32};
use crate::span::Span;
use std::hash::Hash;

/// Equality, order and hash of handles are those of their indices.
pub fn handle_laws<T>(a: Handle<T>, b: Handle<T>)
    ensures equality { ⟦<Handle<T> as PartialEq>⟧.eq a b ≡ (a == b) }
    ensures order { ⟦<Handle<T> as Ord>⟧.cmp a b ≡ nat_cmp a b }
    ensures hash { ⟦<Handle<T> as Hash>⟧.hash_input a ≡ ⟦<NonMaxU32 as Hash>⟧.hash_input a }
{}

/// [`Span::subsume`] is commutative, associative and idempotent, with the identity
/// [`Span::UNDEFINED`], even for spans whose start is greater than their end.
pub fn subsume_laws(a: Span, b: Span, c: Span)
    ensures commutative { joined_span a b ≡ joined_span b a }
    ensures associative { joined_span (joined_span a b) c ≡ joined_span a (joined_span b c) }
    ensures idempotent { joined_span a a ≡ a }
    ensures identity { joined_span a undefined_span ≡ a }
    ensures identity_before { joined_span undefined_span a ≡ a }
{}
