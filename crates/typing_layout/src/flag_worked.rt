//! Examples of the definitions on small types, worked out by hand.
//!
//! The functions have no effect: their contracts are the examples.

ghost use Rattle.std.specs.Prelude.{◌≡◌, None, false};
ghost use Rattle.ir_kinds.specs.judged.Scalars.{boolean, floating, unsigned};
ghost use Rattle.ir_kinds.specs.declared.scalars.VectorSize.TheVariants.{Tri, Quad};
ghost use Rattle.typing_forms.specs.IrTypes.{Constant, Pending, Dynamic};
ghost use Rattle.typing_layout.specs.judged.Buffers.{uniform_alignment};
ghost use Rattle.typing_layout.specs.judged.Flags.{HasFlag, Constructible, Data, HostShareable, IoShareable, Sized};
ghost use Rattle.typing_layout.specs.judged.Immediates.{FitsImmediates};
ghost use Rattle.typing_layout.specs.judged.Tree.{scalar, vector, array, struct, sampler, no_members, member};

/// Type flags.
pub fn flags()
    ensures float_between_stages { HasFlag IoShareable (scalar (floating 4)) }
    ensures truth_value_not_for_host { ¬ HasFlag HostShareable (scalar boolean) }
    ensures sampler_not_stored { ¬ HasFlag Data (sampler false) }
    ensures array_of_values { HasFlag Constructible (array (scalar (floating 4)) (Constant 3) 4) }
    ensures array_by_an_override { ¬ HasFlag Constructible (array (scalar (floating 4)) (Pending 0) 4) }
    ensures array_of_a_buffer { ¬ HasFlag Sized (array (scalar (floating 4)) Dynamic 4) }
    ensures struct_of_values { HasFlag Sized (struct (member (scalar (floating 4)) None 0 no_members) 4) }
    ensures struct_of_a_buffer { ¬ HasFlag Sized (struct (member (array (scalar (floating 4)) Dynamic 4) None 0 no_members) 4) }
{}

/// The alignments of types as members of uniform buffers.
pub fn uniform_alignments()
    ensures float { uniform_alignment (scalar (floating 4)) ≡ 4 }
    ensures vector_of_three { uniform_alignment (vector Tri (floating 4)) ≡ 16 }
    ensures array_of_floats { uniform_alignment (array (scalar (floating 4)) (Constant 3) 4) ≡ 16 }
    ensures vector_of_doubles { uniform_alignment (array (vector Quad (floating 8)) (Constant 3) 32) ≡ 32 }
    ensures struct_of_floats { uniform_alignment (struct (member (scalar (floating 4)) None 0 no_members) 4) ≡ 16 }
{}

/// Types of immediate data.
pub fn immediates()
    ensures integer { FitsImmediates (scalar (unsigned 4)) }
    ensures half { ¬ FitsImmediates (scalar (floating 2)) }
    ensures half_inside { ¬ FitsImmediates (struct (member (array (scalar (floating 2)) (Constant 3) 2) None 0 no_members) 8) }
{}
