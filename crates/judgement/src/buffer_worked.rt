//! The leaves of small types, computed by hand and by the prover. A leaf is written as its path, its offset, its
//! size and its alignment.
//!
//! The functions do nothing: their contracts are the examples.

ghost use Rattle.std.specs.Prelude.{◌≡◌, [], ◌∷◌, None, false};
ghost use Rattle.ir_kinds.specs.judged.Scalars.{floating, unsigned};
ghost use Rattle.ir_kinds.specs.declared.scalars.VectorSize.TheVariants.{Bi, Tri, Quad};
ghost use Rattle.ir_types.specs.declared.types.ArraySize.TheVariants.{Constant, Pending, Dynamic};
ghost use Rattle.judgement.specs.judged.Leaves.{leaves, leaf};
ghost use Rattle.typing_layout.specs.judged.Tree.{scalar, vector, matrix, atomic, array, struct, sampler, no_members, member};

/// The leaves of types without elements or members.
pub fn alone()
    ensures float { leaves 1 (scalar (floating 4)) ≡ leaf [] 0 4 4 ∷ [] }
    ensures matrix { leaves 1 (matrix Tri Bi (floating 4)) ≡ leaf [] 0 24 8 ∷ [] }
    ensures padded { leaves 1 (matrix Tri Tri (floating 4)) ≡ leaf [] 0 48 16 ∷ [] }
    ensures opaque { leaves 1 (sampler false) ≡ [] }
{}

/// The leaves of array elements, in order: as many as the array's length, one for an override-sized array, and for a runtime-sized
/// array as many as the buffer holds.
#[tactic(auto, unfolding(crate::specs::judged::Leaves::repeated))]
pub fn elements()
    ensures so_many { leaves 1 (array (atomic (unsigned 4)) (Constant 2) 8) ≡ leaf (0 ∷ []) 0 4 4 ∷ leaf (1 ∷ []) 8 4 4 ∷ [] }
    ensures by_an_override { leaves 2 (array (atomic (unsigned 4)) (Pending 7) 8) ≡ leaf (0 ∷ []) 0 4 4 ∷ [] }
    ensures in_a_buffer { leaves 2 (array (atomic (unsigned 4)) Dynamic 8) ≡ leaf (0 ∷ []) 0 4 4 ∷ leaf (1 ∷ []) 8 4 4 ∷ [] }
    ensures one { leaves 1 (array (scalar (unsigned 4)) Dynamic 4) ≡ leaf (0 ∷ []) 0 4 4 ∷ [] }
    ensures none { leaves 0 (array (scalar (unsigned 4)) Dynamic 4) ≡ [] }
{}

/// The leaves of struct members, and of their parts.
#[tactic(auto, unfolding(crate::specs::judged::Leaves::repeated))]
pub fn members()
    ensures apart { leaves 1 (struct (member (scalar (floating 4)) None 0 (member (vector Quad (floating 4)) None 16 no_members)) 32)
        ≡ leaf (0 ∷ []) 0 4 4 ∷ leaf (1 ∷ []) 16 16 16 ∷ [] }
    ensures nested { leaves 1 (struct (member (array (scalar (unsigned 4)) (Constant 2) 4) None 8 no_members) 16)
        ≡ leaf (0 ∷ 0 ∷ []) 8 4 4 ∷ leaf (0 ∷ 1 ∷ []) 12 4 4 ∷ [] }
    ensures last { leaves 2 (struct (member (scalar (unsigned 4)) None 0 (member (array (scalar (unsigned 4)) Dynamic 4) None 4 no_members)) 8)
        ≡ leaf (0 ∷ []) 0 4 4 ∷ leaf (1 ∷ 0 ∷ []) 4 4 4 ∷ leaf (1 ∷ 1 ∷ []) 8 4 4 ∷ [] }
{}
