//! Examples of the definitions on small types, worked out by hand and computed by the prover.
//!
//! The functions have no effect: their contracts are the examples.

ghost use Rattle.std.specs.Prelude.{◌≡◌, None, false, true};
ghost use Rattle.ir_kinds.specs.judged.Scalars.{boolean, floating, unsigned};
ghost use Rattle.ir_kinds.specs.declared.scalars.VectorSize.TheVariants.{Bi, Tri, Quad};
ghost use Rattle.ir_kinds.specs.declared.scalars.CooperativeSize.TheVariants.{Eight, Sixteen};
ghost use Rattle.ir_kinds.specs.declared.scalars.CooperativeRole.TheVariants.{A as Left};
ghost use Rattle.typing_forms.specs.IrTypes.{Constant, Pending, Dynamic};
ghost use Rattle.typing_layout.specs.judged.Layout.{size, alignment};
ghost use Rattle.typing_layout.specs.judged.Tree.{scalar, vector, matrix, cooperative_matrix, array, struct, sampler, binding_array, no_members, member};

/// Sizes.
pub fn sizes()
    ensures float { size (scalar (floating 4)) ≡ 4 }
    ensures truth_value { size (scalar boolean) ≡ 1 }
    ensures vector_of_three { size (vector Tri (floating 4)) ≡ 12 }
    ensures matrix_of_three_rows { size (matrix Tri Tri (floating 4)) ≡ 48 }
    ensures matrix_of_two_rows { size (matrix Quad Bi (floating 2)) ≡ 16 }
    ensures cooperative { size (cooperative_matrix Eight Sixteen (floating 2) Left) ≡ 256 }
    ensures by_stride { size (array (scalar (unsigned 4)) (Constant 3) 2) ≡ 6 }
    ensures by_an_override { size (array (scalar (unsigned 4)) (Pending 7) 8) ≡ 8 }
    ensures in_a_buffer { size (array (scalar (unsigned 4)) Dynamic 4) ≡ 4 }
    ensures by_span { size (struct (member (scalar (floating 4)) None 0 no_members) 4294967295) ≡ 4294967295 }
    ensures opaque { size (binding_array (sampler false) (Constant 3)) ≡ 0 }
{}

/// Alignments.
pub fn alignments()
    ensures float { alignment (scalar (floating 4)) ≡ 4 }
    ensures vector_of_two { alignment (vector Bi (floating 4)) ≡ 8 }
    ensures vector_of_three { alignment (vector Tri (floating 4)) ≡ 16 }
    ensures matrix_of_three_rows { alignment (matrix Bi Tri (floating 4)) ≡ 16 }
    ensures cooperative { alignment (cooperative_matrix Eight Sixteen (floating 2) Left) ≡ 2 }
    ensures of_elements { alignment (array (scalar (unsigned 4)) (Constant 3) 2) ≡ 4 }
    ensures of_members { alignment (struct (member (scalar (floating 4)) None 0 (member (vector Quad (floating 4)) None 16 no_members)) 32) ≡ 16 }
    ensures of_none { alignment (struct no_members 4) ≡ 1 }
    ensures opaque { alignment (sampler true) ≡ 1 }
{}
