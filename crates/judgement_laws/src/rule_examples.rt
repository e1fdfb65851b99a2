//! Examples of the definitions of validation, computed by hand and by the prover.
//!
//! The functions do nothing: their contracts are the examples.

ghost use Rattle.std.specs.Prelude.{◌≡◌, [], ◌∷◌, None, Some, true, false, codes, nat_eq};
ghost use Rattle.ir_flags.specs.declared.settings.TheConstants.Capabilities.{SHADER_FLOAT16};
ghost use Rattle.ir_kinds.specs.declared.scalars.ScalarKind.TheVariants.{Float, Uint, Bool as Boolean, AbstractInt};
ghost use Rattle.ir_kinds.specs.declared.values.SwitchValue.TheVariants.{U32, Default};
ghost use Rattle.ir_blocks.specs.judged.Plain.{emit, block, if_, switch, loop, break, return, kill, call, stop, next, no_case, case};
ghost use Rattle.ir_blocks.specs.judged.Shapes.{breaks, continues, returns, kills, inner, case_at, loop_body, loop_continuing};
ghost use Rattle.ir_blocks.specs.judged.Control.{may_leave};
ghost use Rattle.ir_blocks.specs.judged.Tails.{completed};
ghost use Rattle.typing_layout.specs.judged.Widths.{IsKindAllowed};
ghost use Rattle.spec_expressions.specs.judged.StatementNames.{statement_operands, statement_callee, statement_result, statement_range};
ghost use Rattle.judgement.specs.judged.Text.{text_of};
ghost use Rattle.judgement.specs.declared.finding.Finding.TheVariants.{Accepted, RefusedDocument, RefusedHandles, Refused};
ghost use Rattle.judgement.specs.declared.finding.Step.TheVariants.{«Type», Function};

/// The line of text of each validation result.
pub fn lines()
    ensures accepted { text_of (Accepted false) ≡ codes "accepted\n" }
    ensures accepted_strict { text_of (Accepted true) ≡ codes "accepted strict\n" }
    ensures document { text_of RefusedDocument ≡ codes "refused document\n" }
    ensures handles { text_of RefusedHandles ≡ codes "refused handles\n" }
    ensures first_type { text_of (Refused «Type» 0) ≡ codes "refused type 0\n" }
    ensures later_function { text_of (Refused Function 12) ≡ codes "refused function 12\n" }
{}

/// What a statement references; nested statements are not included.
pub fn references()
    ensures operands_of_a_call { statement_operands (call 1 (0 ∷ 2 ∷ []) (Some 3)) ≡ 0 ∷ 2 ∷ [] }
    ensures callee_of_a_call { statement_callee (call 1 (0 ∷ 2 ∷ []) (Some 3)) ≡ Some 1 }
    ensures result_of_a_call { statement_result (call 1 (0 ∷ 2 ∷ []) (Some 3)) ≡ Some 3 }
    ensures callee_of_a_plain_call { statement_callee (call 7 [] None) ≡ Some 7 }
    ensures callee_of_a_block { statement_callee (block (next (call 1 [] None) stop)) ≡ None }
    ensures operands_of_an_if { statement_operands (if_ 4 (next (return (Some 1)) stop) stop) ≡ 4 ∷ [] }
    ensures operands_of_a_loop { statement_operands (loop stop stop (Some 2)) ≡ 2 ∷ [] }
    ensures operands_of_a_return { statement_operands (return (Some 5)) ≡ 5 ∷ [] }
    ensures range_of_an_emit { statement_range (emit 1 3) ≡ Some (record { first = 1; end = 3 }) }
{}

/// Which scalars are valid types.
pub fn scalars()
    ensures half_with_its_capability { IsKindAllowed SHADER_FLOAT16 Float 2 }
    ensures half_without_it { ¬ IsKindAllowed (record { 0 = 0 }) Float 2 }
    ensures plain_unsigned { IsKindAllowed (record { 0 = 0 }) Uint 4 }
    ensures truth_value { IsKindAllowed (record { 0 = 0 }) Boolean 1 }
    ensures wide_truth_value { ¬ IsKindAllowed (record { 0 = 0 }) Boolean 4 }
    ensures abstract_integer { ¬ IsKindAllowed (record { 0 = 0 }) AbstractInt 8 }
{}

/// How control flow may leave a statement, from the innermost construct outward.
pub fn control()
    ensures break_in_a_body { may_leave breaks [] ≡ false }
    ensures break_in_a_case { may_leave breaks (case_at 0 ∷ []) ≡ true }
    ensures continue_in_a_case { may_leave continues (case_at 0 ∷ []) ≡ false }
    ensures continue_in_a_case_in_a_loop { may_leave continues (case_at 1 ∷ loop_body ∷ []) ≡ true }
    ensures break_in_a_block_in_a_loop { may_leave breaks (inner ∷ loop_body ∷ []) ≡ true }
    ensures break_in_a_continuing_part { may_leave breaks (loop_continuing ∷ loop_body ∷ []) ≡ false }
    ensures break_in_a_loop_in_a_continuing_part { may_leave breaks (loop_body ∷ loop_continuing ∷ []) ≡ true }
    ensures return_in_a_body { may_leave returns [] ≡ true }
    ensures return_in_a_loop_in_a_continuing_part { may_leave returns (loop_body ∷ loop_continuing ∷ []) ≡ false }
    ensures kill_in_a_continuing_part { may_leave kills (loop_continuing ∷ []) ≡ true }
{}

/// Where missing returns are inserted.
pub fn completed_bodies()
    ensures nothing { completed stop ≡ next (return None) stop }
    ensures behind_a_call { completed (next (call 0 [] None) stop) ≡ next (call 0 [] None) (next (return None) stop) }
    ensures behind_a_loop { completed (next (loop stop stop None) stop) ≡ next (loop stop stop None) (next (return None) stop) }
    ensures not_behind_a_return { completed (next (return (Some 0)) stop) ≡ next (return (Some 0)) stop }
    ensures in_a_last_block { completed (next (block stop) stop) ≡ next (block (next (return None) stop)) stop }
    ensures not_in_an_earlier_block { completed (next (block stop) (next kill stop)) ≡ next (block stop) (next kill stop) }
    ensures in_one_side_of_an_if { completed (next (if_ 0 stop (next kill stop)) stop) ≡ next (if_ 0 (next (return None) stop) (next kill stop)) stop }
    ensures not_where_a_case_falls_through { completed (next (switch 0 (case (U32 1) stop true (case Default stop false no_case))) stop)
        ≡ next (switch 0 (case (U32 1) stop true (case Default (next (return None) stop) false no_case))) stop }
{}
