//! Sets of handles, vectors that are indexed by handles, and arenas of distinct values.
//!
//! The modules and names are those of naga's `arena`.
//!
//! In a contract a [`handle_set::HandleSet`] is the set of its members' indices, and a
//! [`handle_vec::HandleVec`] the list of its values. A [`unique_arena::UniqueArena`] is the list of its values with their
//! spans, like an arena of [`ir_arena`], and stores the values in an `IndexSet`, which looks a value up by its hash. The
//! hashers have a key ([`keyed`]), which readers of attacker-controlled input derive from that input.
#![tactic(auto)]

pub mod bits;
pub mod drain;
pub mod handle_set;
pub mod handle_vec;
pub mod keyed;
pub mod next;
pub mod range_set;
pub mod unique_arena;
