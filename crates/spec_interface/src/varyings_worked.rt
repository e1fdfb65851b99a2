//! Examples of the definitions on small interfaces, worked out by hand.
//!
//! The functions have no effect: their contracts are the examples.

ghost use Rattle.std.specs.Prelude.{◌≡◌, [], ◌∷◌, None, Some, false, true};
ghost use Rattle.ir_kinds.specs.declared.bindings.BuiltIn.TheVariants.{Barycentric, CullPrimitive, FragDepth, MeshTaskSize, Position, PrimitiveIndex, SampleMask, SubgroupSize, VertexCount, VertexIndex};
ghost use Rattle.ir_kinds.specs.declared.bindings.Interpolation.TheVariants.{Flat, Linear, PerVertex, Perspective};
ghost use Rattle.ir_kinds.specs.declared.bindings.Sampling.TheVariants.{Center, First, Sample};
ghost use Rattle.ir_kinds.specs.declared.scalars.ScalarKind.TheVariants.{Float, Uint};
ghost use Rattle.ir_kinds.specs.declared.stages.ShaderStage.TheVariants.{ClosestHit, Fragment, Mesh, Miss, Task, Vertex};
ghost use Rattle.spec_interface.specs.judged.BuiltIns.{IsFree, RowOccursAt};
ghost use Rattle.spec_interface.specs.judged.Locations.{NeedsInterpolation, InterpolationOK, PerPrimitiveOK, sampling_fits};
ghost use Rattle.spec_interface.specs.judged.BuiltInRows.{built_in_row};
ghost use Rattle.spec_interface.specs.judged.Varyings.{canonical, location_of, varying, varyings_of};
ghost use Rattle.spec_interface.specs.found.Worked.{bound_at, linear_at, small_types};
ghost use Rattle.spec_interface.specs.declared.varyings.Bound.TheVariants.{BlendSources, BuiltIn, Location, NoMember, Nothing};
ghost use Rattle.spec_interface.specs.declared.varyings.Direction.TheVariants.{Input, Output, PrimitiveOutput, VertexOutput};

/// Stages of built-in values.
pub fn built_ins()
    ensures vertex_is_given_its_index { RowOccursAt Input Vertex (built_in_row VertexIndex) }
    ensures and_does_not_give_it { ¬ RowOccursAt Output Vertex (built_in_row VertexIndex) }
    ensures vertex_gives_its_position { RowOccursAt Output Vertex (built_in_row (Position true)) }
    ensures mesh_gives_it_with_a_vertex { RowOccursAt VertexOutput Mesh (built_in_row (Position false)) }
    ensures fragment_is_given_it { RowOccursAt Input Fragment (built_in_row (Position false)) }
    ensures fragment_gives_its_depth { RowOccursAt Output Fragment (built_in_row FragDepth) }
    ensures samples_go_in { RowOccursAt Input Fragment (built_in_row SampleMask) }
    ensures samples_go_out { RowOccursAt Output Fragment (built_in_row SampleMask) }
    ensures primitive_is_culled { RowOccursAt PrimitiveOutput Mesh (built_in_row CullPrimitive) }
    ensures vertex_is_not { ¬ RowOccursAt VertexOutput Mesh (built_in_row CullPrimitive) }
    ensures task_gives_its_size { RowOccursAt Output Task (built_in_row MeshTaskSize) }
    ensures vertex_has_no_subgroup { ¬ RowOccursAt Input Vertex (built_in_row SubgroupSize) }
    ensures miss_has_one { RowOccursAt Input Miss (built_in_row SubgroupSize) }
    ensures count_of_vertices_goes_nowhere { ¬ RowOccursAt VertexOutput Mesh (built_in_row VertexCount) }
    ensures hit_has_its_primitive_for_free { IsFree ClosestHit (built_in_row PrimitiveIndex).exception }
    ensures fragment_has_not { ¬ IsFree Fragment (built_in_row PrimitiveIndex).exception }
{}

/// Interpolation.
pub fn between_vertices()
    ensures at_each_sample { sampling_fits Linear Sample ≡ true }
    ensures flat_at_a_vertex { sampling_fits Flat First ≡ true }
    ensures flat_in_a_fragment { sampling_fits Flat Center ≡ false }
    ensures perspective_at_a_vertex { sampling_fits Perspective First ≡ false }
    ensures each_vertex_nowhere { sampling_fits PerVertex Center ≡ false }
    ensures float_is_found { InterpolationOK Float (Some Linear) }
    ensures float_is_not { ¬ InterpolationOK Float None }
    ensures integer_is_flat { ¬ InterpolationOK Uint (Some Perspective) }
    ensures fragment_is_given_it { NeedsInterpolation Input Fragment false }
    ensures not_with_a_primitive { ¬ NeedsInterpolation Input Fragment true }
    ensures fragment_gives_none { ¬ NeedsInterpolation Output Fragment false }
    ensures mesh_belongs_to_a_primitive { PerPrimitiveOK PrimitiveOutput Mesh true }
    ensures vertex_does_not { ¬ PerPrimitiveOK Output Vertex true }
    ensures fragment_may { PerPrimitiveOK Input Fragment true }
{}

/// Which varyings there are: of an argument by its index, of a result, and of structs without bindings.
pub fn varyings()
    ensures bound_argument { varyings_of small_types 2 0 (Some (bound_at 7 None)) ≡ varying 2 (Location 0 (linear_at 7 None)) ∷ [] }
    ensures nothing_bound { varyings_of small_types 0 0 None ≡ varying 0 Nothing ∷ [] }
    ensures members { varyings_of small_types 0 2 None ≡ varying 0 (BuiltIn 1 (Position false)) ∷ varying 0 (Location 0 (linear_at 3 None)) ∷ [] }
    ensures two_sources { varyings_of small_types 0 3 None ≡ varying 0 BlendSources ∷ [] }
    ensures member_that_is_not_bound { varyings_of small_types 1 4 None ≡ varying 1 (NoMember 0) ∷ varying 1 (Location 0 (linear_at 5 None)) ∷ [] }
    ensures sources_take_the_first_location { location_of BlendSources ≡ Some 0 }
    ensures one_position { canonical (Position true) ≡ canonical (Position false) }
    ensures one_barycentric { canonical (Barycentric true) ≡ canonical (Barycentric false) }
{}
