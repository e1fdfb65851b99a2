//! Examples of the rules on small expressions, worked out by hand.
//!
//! The functions have no effect: their contracts are the examples.

ghost use Rattle.std.specs.Prelude.{◌≡◌, [], ◌∷◌, pos, negsuc, Some, None, true, false};
ghost use Rattle.ir_types.specs.judged.ExpressionPlain.{compose, plain};
ghost use Rattle.ir_types.specs.declared.expressions.Expression.TheVariants as x;
ghost use Rattle.ir_types.specs.declared.expressions.SampleLevel.TheVariants.{Zero, Exact, Bias, Gradient};
ghost use Rattle.ir_kinds.specs.declared.operators.DerivativeAxis.TheVariants as axis;
ghost use Rattle.ir_kinds.specs.declared.operators.DerivativeControl.TheVariants as control;
ghost use Rattle.ir_kinds.specs.judged.Scalars.{boolean, floating, signed, unsigned};
ghost use Rattle.ir_kinds.specs.declared.operators.BinaryOperator.TheVariants as binary;
ghost use Rattle.ir_kinds.specs.declared.operators.RelationalFunction.TheVariants as relation;
ghost use Rattle.ir_kinds.specs.declared.operators.UnaryOperator.TheVariants as unary;
ghost use Rattle.ir_kinds.specs.declared.scalars.CooperativeRole.TheVariants as role;
ghost use Rattle.ir_kinds.specs.declared.scalars.CooperativeSize.TheVariants.{Eight, Sixteen};
ghost use Rattle.ir_kinds.specs.declared.scalars.VectorSize.TheVariants.{Bi, Tri, Quad};
ghost use Rattle.ir_kinds.specs.declared.spaces.AddressSpace.TheVariants.{Function};
ghost use Rattle.ir_types.specs.judged.Plain.{plain as plain_type};
ghost use Rattle.ir_types.specs.declared.types.ArraySize.TheVariants as count;
ghost use Rattle.ir_types.specs.declared.types.TypeInner.TheVariants as inner;
ghost use Rattle.spec_statements.specs.judged.Access.{AccessIndexOK, IsIndexOf, known_length};
ghost use Rattle.spec_statements.specs.judged.CooperativeMatrices.{CooperativeLoadOK, MultiplyAddOK};
ghost use Rattle.spec_statements.specs.judged.Derivatives.{DerivativeOK};
ghost use Rattle.spec_statements.specs.judged.Expressions.{RequiredOf};
ghost use Rattle.spec_statements.specs.judged.ImageLoads.{IsAnswered, IsReadable, IsTexelCoordinate};
ghost use Rattle.spec_statements.specs.judged.ImageSamples.{HasNeighbours, ClampOK, IsClamped, IsFiltered, IsGathered, IsLevel, IsOffset, ExternalOK};
ghost use Rattle.spec_statements.specs.found.Laws.{under};
ghost use Rattle.spec_statements.specs.judged.Shapes.{ExactlyIf};
ghost use Rattle.ir_types.specs.declared.expressions.ImageQuery.TheVariants.{Size, NumLevels, NumLayers, NumSamples};
ghost use Rattle.ir_kinds.specs.declared.images.ImageClass.TheVariants as class;
ghost use Rattle.ir_flags.specs.declared.memory.TheConstants.StorageAccess.{STORE};
ghost use Rattle.ir_kinds.specs.declared.images.StorageFormat.TheVariants.{R32Uint};
ghost use Rattle.ir_kinds.specs.declared.images.ImageDimension.TheVariants.{D2, D3, Cube};
ghost use Rattle.ir_kinds.specs.declared.scalars.ScalarKind.TheVariants as kind;
ghost use Rattle.ir_kinds.specs.declared.scalars.SwizzleComponent.TheVariants.{X, Y};
ghost use Rattle.spec_statements.specs.judged.Operators.{BinaryOK, UnaryOK};
ghost use Rattle.spec_statements.specs.judged.Selections.{RelationalOK, SelectOK};
ghost use Rattle.spec_statements.specs.judged.ExpressionStages.{all_stages, sample_stages, stages_of};
ghost use Rattle.spec_expressions.specs.TypingForms.form as form;
ghost use Rattle.ir_flags.specs.declared.stages.TheConstants.ShaderStages.{FRAGMENT, COMPUTE};

/// Unary operations.
pub fn unary()
    ensures negated_float { UnaryOK unary.Negate (form.Scalar (floating 4)) }
    ensures negated_matrix { UnaryOK unary.Negate (form.Matrix Bi Tri (floating 4)) }
    ensures unsigned_not_negated { ¬ UnaryOK unary.Negate (form.Scalar (unsigned 4)) }
    ensures negation_of_truth_values { UnaryOK unary.LogicalNot (form.Vector Bi boolean) }
    ensures no_negation_of_numbers { ¬ UnaryOK unary.LogicalNot (form.Scalar (signed 4)) }
    ensures bits_of_integers { UnaryOK unary.BitwiseNot (form.Vector Quad (unsigned 8)) }
    ensures no_bits_of_floats { ¬ UnaryOK unary.BitwiseNot (form.Scalar (floating 4)) }
{}

/// Binary operations.
pub fn binary()
    ensures sum { BinaryOK binary.Add (form.Vector Tri (floating 4)) (form.Vector Tri (floating 4)) }
    ensures sum_of_truth_values { ¬ BinaryOK binary.Add (form.Scalar boolean) (form.Scalar boolean) }
    ensures sum_of_two_types { ¬ BinaryOK binary.Add (form.Scalar (floating 4)) (form.Scalar (signed 4)) }
    ensures product_of_truth_values { BinaryOK binary.Multiply (form.Scalar boolean) (form.Scalar boolean) }
    ensures scaled_matrix { BinaryOK binary.Multiply (form.Matrix Bi Tri (floating 4)) (form.Scalar (floating 4)) }
    ensures scaled_by_another { ¬ BinaryOK binary.Multiply (form.Matrix Bi Tri (floating 4)) (form.Scalar (floating 2)) }
    ensures matrix_by_vector { BinaryOK binary.Multiply (form.Matrix Bi Tri (floating 4)) (form.Vector Bi (floating 4)) }
    ensures vector_by_matrix { BinaryOK binary.Multiply (form.Vector Tri (floating 4)) (form.Matrix Bi Tri (floating 4)) }
    ensures matrix_by_rows { ¬ BinaryOK binary.Multiply (form.Matrix Bi Tri (floating 4)) (form.Vector Tri (floating 4)) }
    ensures matrices { BinaryOK binary.Multiply (form.Matrix Bi Tri (floating 4)) (form.Matrix Quad Bi (floating 4)) }
    ensures equal_truth_values { BinaryOK binary.Equal (form.Scalar boolean) (form.Scalar boolean) }
    ensures equal_matrices { ¬ BinaryOK binary.Equal (form.Matrix Bi Bi (floating 4)) (form.Matrix Bi Bi (floating 4)) }
    ensures ordered_truth_values { ¬ BinaryOK binary.Less (form.Scalar boolean) (form.Scalar boolean) }
    ensures both { BinaryOK binary.LogicalAnd (form.Scalar boolean) (form.Scalar boolean) }
    ensures both_in_a_row { ¬ BinaryOK binary.LogicalAnd (form.Vector Bi boolean) (form.Vector Bi boolean) }
    ensures bits_of_truth_values { BinaryOK binary.And (form.Vector Bi boolean) (form.Vector Bi boolean) }
    ensures exclusive_truth_values { ¬ BinaryOK binary.ExclusiveOr (form.Scalar boolean) (form.Scalar boolean) }
    ensures shift { BinaryOK binary.ShiftLeft (form.Vector Bi (signed 8)) (form.Vector Bi (unsigned 4)) }
    ensures shift_by_one_for_all { ¬ BinaryOK binary.ShiftLeft (form.Vector Bi (signed 4)) (form.Scalar (unsigned 4)) }
    ensures shift_by_signed { ¬ BinaryOK binary.ShiftRight (form.Scalar (signed 4)) (form.Scalar (signed 4)) }
{}

/// Selections, relational functions and derivatives.
pub fn selections()
    ensures whole { SelectOK (form.Scalar boolean) (form.Vector Bi (signed 4)) (form.Vector Bi (signed 4)) }
    ensures by_components { SelectOK (form.Vector Bi boolean) (form.Vector Bi (signed 4)) (form.Vector Bi (signed 4)) }
    ensures too_many_conditions { ¬ SelectOK (form.Vector Tri boolean) (form.Vector Bi (signed 4)) (form.Vector Bi (signed 4)) }
    ensures of_two_types { ¬ SelectOK (form.Scalar boolean) (form.Scalar (signed 4)) (form.Scalar (unsigned 4)) }
    ensures of_structs { ¬ SelectOK (form.Scalar boolean) (form.Struct 0) (form.Struct 0) }
    ensures by_a_number { ¬ SelectOK (form.Scalar (unsigned 4)) (form.Scalar (signed 4)) (form.Scalar (signed 4)) }
    ensures any { RelationalOK relation.Any (form.Vector Bi boolean) }
    ensures any_of_one { ¬ RelationalOK relation.Any (form.Scalar boolean) }
    ensures not_a_number { RelationalOK relation.IsNan (form.Scalar (floating 2)) }
    ensures integer_is_a_number { ¬ RelationalOK relation.IsNan (form.Scalar (signed 4)) }
    ensures slope { DerivativeOK (form.Vector Bi (floating 4)) }
    ensures slope_of_an_integer { ¬ DerivativeOK (form.Scalar (signed 4)) }
{}

/// Image samples, loads and queries.
pub fn images()
    ensures texel { IsTexelCoordinate D2 (form.Vector Bi (unsigned 4)) }
    ensures texel_of_a_cube { ¬ IsTexelCoordinate Cube (form.Vector Tri (signed 4)) }
    ensures texel_by_floats { ¬ IsTexelCoordinate D2 (form.Vector Bi (floating 4)) }
    ensures integers_gathered { IsFiltered (class.Sampled kind.Sint false) (Some X) }
    ensures no_cubes_beside { ¬ HasNeighbours D3 }
    ensures layer_where_there_are_layers { ¬ ExactlyIf true None (λ place. place ≡ 0) }
    ensures no_layer_where_there_are_none { ¬ ExactlyIf false (Some 0) (λ place. place ≡ 0) }
    ensures level_of_floats { IsLevel (form.Scalar (floating 4) ∷ []) (class.Sampled kind.Float false) (form.Scalar (floating 4)) (Exact 0) }
    ensures gradients { IsLevel (form.Scalar (floating 4) ∷ []) (class.Depth false) (form.Scalar (floating 4)) (Gradient 0 0) }
    ensures bias_of_integers { ¬ IsLevel (form.Scalar (signed 4) ∷ []) (class.Sampled kind.Float false) (form.Scalar (floating 4)) (Bias 0) }
    ensures depths_not_clamped { ¬ IsClamped (record { dim = D2; arrayed = false; class = class.Depth false }) }
    ensures samples { IsAnswered [] NumSamples (record { dim = D2; arrayed = false; class = class.Depth true }) }
    ensures no_levels_of_samples { ¬ IsAnswered [] NumLevels (record { dim = D2; arrayed = false; class = class.Depth true }) }
    ensures no_layers { ¬ IsAnswered [] NumLayers (record { dim = D2; arrayed = false; class = class.Depth true }) }
    ensures size_at_no_level { IsAnswered [] (Size None) (record { dim = D2; arrayed = false; class = class.External }) }
    ensures no_size_at_a_level { ¬ IsAnswered [] (Size (Some 0)) (record { dim = D2; arrayed = false; class = class.External }) }
    ensures written_alone { ¬ IsReadable (class.Storage R32Uint STORE) }
    ensures read_and_written { IsReadable (class.Storage R32Uint (record { 0 = 3 })) }
{}

/// Gathers, offsets, clamped samples and external images.
pub fn samples()
    ensures integers_not_filtered { ¬ IsFiltered (class.Sampled kind.Uint false) None }
    ensures gathered_depths { IsGathered (record { dim = Cube; arrayed = true; class = class.Depth false }) Zero X }
    ensures second_component_of_depths { ¬ IsGathered (record { dim = D2; arrayed = false; class = class.Depth false }) Zero Y }
    ensures gathered_at_a_level { ¬ IsGathered (record { dim = D2; arrayed = false; class = class.Depth false }) (Exact 0) X }
    ensures gathered_of_a_volume { ¬ IsGathered (record { dim = D3; arrayed = false; class = class.Sampled kind.Float false }) Zero X }
    ensures whole_level_of_depths { IsLevel (form.Scalar (signed 4) ∷ []) (class.Depth false) (form.Vector Bi (floating 4)) (Exact 0) }
    ensures whole_level_of_floats { ¬ IsLevel (form.Scalar (signed 4) ∷ []) (class.Sampled kind.Float false) (form.Vector Bi (floating 4)) (Exact 0) }
    ensures offset_in_a_cube { ¬ IsOffset [] [] Cube 0 }
    ensures floats_clamped { ClampOK (record { dim = D2; arrayed = false; class = class.Sampled kind.Float false }) true }
    ensures layers_not_clamped { ¬ ClampOK (record { dim = D2; arrayed = true; class = class.Sampled kind.Float false }) true }
    ensures outside_unclamped { ¬ ClampOK (record { dim = D2; arrayed = false; class = class.External }) false }
    ensures outside_as_it_is { ExternalOK class.External None None Zero }
    ensures outside_at_a_level { ¬ ExternalOK class.External None None (Exact 0) }
    ensures outside_gathered { ¬ ExternalOK class.External (Some X) None Zero }
{}

/// Compositions in lists with other kinds of expressions.
pub fn compositions()
    ensures of_no_type { ¬ RequiredOf (under (record { 0 = 0 }) [] [] []) (compose 0 []) }
    ensures of_what_is_not_composed { ¬ RequiredOf (under (record { 0 = 0 }) (record { name = None; inner = plain_type (inner.Scalar (signed 4)) } ∷ []) [] (form.Scalar (signed 4) ∷ [])) (compose 0 (0 ∷ [])) }
    ensures others_by_their_rows { RequiredOf (under (record { 0 = 0 }) [] [] (form.Scalar (floating 4) ∷ [])) (plain (x.Derivative axis.X control.Coarse 0)) }
{}

/// Access indices.
pub fn indexes()
    ensures last_component { AccessIndexOK [] (form.Vector Bi (floating 4)) 1 }
    ensures past_the_array { ¬ AccessIndexOK [] (form.Array 0 (count.Constant 3) 4) 3 }
    ensures anywhere_by_an_override { AccessIndexOK [] (form.Array 0 (count.Pending 0) 4) 3 }
    ensures anywhere_in_a_buffer { AccessIndexOK [] (form.Array 0 count.Dynamic 4) 3 }
    ensures bound { ¬ AccessIndexOK [] (form.BindingArray 0 (count.Constant 3)) 3 }
    ensures of_a_pointed_vector { ¬ IsIndexOf (known_length [] (form.ValuePointer (Some Bi) (floating 4) Function)) (pos 2) }
    ensures negative { ¬ IsIndexOf None (negsuc 0) }
{}

/// Cooperative matrices.
pub fn cooperative()
    ensures stride { CooperativeLoadOK (form.Scalar (unsigned 4)) }
    ensures product { MultiplyAddOK (form.CooperativeMatrix Eight Sixteen (floating 2) role.A) (form.CooperativeMatrix Eight Eight (floating 2) role.B) (form.CooperativeMatrix Eight Sixteen (floating 4) role.C) }
    ensures two_left_factors { ¬ MultiplyAddOK (form.CooperativeMatrix Eight Eight (floating 2) role.A) (form.CooperativeMatrix Eight Eight (floating 2) role.A) (form.CooperativeMatrix Eight Eight (floating 2) role.C) }
    ensures two_scalars { ¬ MultiplyAddOK (form.CooperativeMatrix Eight Eight (floating 2) role.A) (form.CooperativeMatrix Eight Eight (floating 4) role.B) (form.CooperativeMatrix Eight Eight (floating 2) role.C) }
    ensures rows_of_the_sum { ¬ MultiplyAddOK (form.CooperativeMatrix Eight Sixteen (floating 2) role.A) (form.CooperativeMatrix Eight Eight (floating 2) role.B) (form.CooperativeMatrix Eight Eight (floating 2) role.C) }
{}

/// Stages that may run expressions.
pub fn stages()
    ensures slope { stages_of [] (plain (x.Derivative axis.X control.Coarse 0)) ≡ FRAGMENT }
    ensures exact_level { sample_stages (Exact 0) ≡ all_stages }
    ensures biased_level { sample_stages (Bias 0) ≡ FRAGMENT }
    ensures product { stages_of [] (plain (x.CooperativeMultiplyAdd 0 1 2)) ≡ COMPUTE }
    ensures call { stages_of (all_stages ∷ FRAGMENT ∷ []) (plain (x.CallResult 1)) ≡ FRAGMENT }
{}
