//! The rules of statements on small functions, computed by hand and by the prover.
//!
//! The functions do nothing: their contracts are the examples.
ghost use Rattle.std.specs.Prelude.{[], ◌∷◌, None, Some, true, false, pos};
ghost use Rattle.ir_blocks.specs.judged.Places.{here, condition};
ghost use Rattle.ir_blocks.specs.judged.Plain.{emit, block, if_, switch, loop, continue, call, stop, no_case, case};
ghost use Rattle.ir_flags.specs.declared.memory.TheConstants.Barrier.{WORK_GROUP, SUB_GROUP};
ghost use Rattle.ir_kinds.specs.judged.Scalars.{boolean, floating, signed, unsigned};
ghost use Rattle.ir_kinds.specs.declared.scalars.VectorSize.TheVariants.{Bi};
ghost use Rattle.ir_kinds.specs.declared.spaces.AddressSpace.TheVariants as space;
ghost use Rattle.ir_kinds.specs.declared.values.SwitchValue.TheVariants.{I32, U32, Default};
ghost use Rattle.spec_statements.specs.judged.Barriers.{BarrierOK};
ghost use Rattle.spec_statements.specs.judged.Calls.{CallOK};
ghost use Rattle.spec_statements.specs.judged.Emits.{EmitOK};
ghost use Rattle.spec_statements.specs.judged.Results.{AnsweredOnce};
ghost use Rattle.spec_statements.specs.judged.Returns.{ReturnOK};
ghost use Rattle.spec_statements.specs.judged.Scope.{ScopeOK};
ghost use Rattle.spec_statements.specs.judged.Strict.{InStrictScope};
ghost use Rattle.spec_statements.specs.judged.Stores.{StoreOK};
ghost use Rattle.spec_statements.specs.judged.Subgroups.{BallotOK};
ghost use Rattle.spec_statements.specs.judged.Switches.{SwitchOK};
ghost use Rattle.judgement_laws.specs.found.Worked.{one, two, use_of, over_truths, over_answer, first_answered, storing, calling, answering, allowing};
ghost use Rattle.typing_forms.specs.declared.form.Form.TheVariants as form;

/// Scope: what is in scope where.
pub fn scope()
    ensures emitted_twice { ¬ ScopeOK (over_truths (two (emit 1 2) (emit 1 2))) }
    ensures emitted_in_two_blocks { ScopeOK (over_truths (two (block (one (emit 1 2))) (block (one (emit 1 2))))) }
    ensures literal_emitted { ¬ ScopeOK (over_truths (one (emit 0 1))) }
    ensures operand_not_emitted { ScopeOK (over_truths (one (emit 2 3))) }
    ensures used_behind_its_block { ¬ ScopeOK (over_truths (two (block (one (emit 1 2))) (use_of 1))) }
    ensures used_in_the_next_case { ¬ ScopeOK (over_truths (one (switch 0 (case (U32 1) (one (emit 1 2)) true (case Default (one (use_of 1)) false no_case))))) }
    ensures condition_behind_a_continue { ScopeOK (over_truths (one (loop (two (if_ 0 (one continue) stop) (emit 1 2)) stop (Some 1)))) }
    ensures condition_from_the_continuing_part { ScopeOK (over_truths (one (loop stop (one (emit 1 2)) (Some 1)))) }
    ensures emitted_in_both_parts { ¬ ScopeOK (over_truths (one (loop (one (emit 1 2)) (one (emit 1 2)) None))) }
    ensures used_behind_its_loop { ¬ ScopeOK (over_truths (two (loop (one (emit 1 2)) stop (Some 1)) (use_of 1))) }
{}

/// Strict scope: after a continue, nothing is in scope for a loop's `break_if`, whether before or after a nested
/// loop; and an operand that nothing emits is not in scope where an expression that uses it is emitted.
pub fn strict_scope()
    ensures behind_a_continue { ¬ InStrictScope (over_truths (one (loop (two (if_ 0 (one continue) stop) (emit 1 2)) stop (Some 1)))) condition 1 }
    ensures before_a_continue { InStrictScope (over_truths (one (loop (two (emit 1 2) (if_ 0 (one continue) stop)) stop (Some 1)))) condition 1 }
    ensures behind_a_loop_inside { InStrictScope (over_truths (one (loop (two (loop (one continue) stop None) (emit 1 2)) stop (Some 1)))) condition 1 }
    ensures operand_not_emitted { ¬ InStrictScope (over_truths (one (emit 2 3))) here 1 }
{}

/// What denotes the results of calls. The flags are all six, or `BLOCKS` alone.
pub fn answers()
    ensures answered { AnsweredOnce (record { 0 = 63 }) (over_answer (one (call 0 [] (Some 0)))) }
    ensures answered_in_two_blocks { ¬ AnsweredOnce (record { 0 = 63 }) (over_answer (two (block (one (call 0 [] (Some 0)))) (block (one (call 0 [] (Some 0)))))) }
    ensures not_answered { ¬ AnsweredOnce (record { 0 = 63 }) (over_answer stop) }
    ensures answered_where_blocks_alone_are_asked { ¬ AnsweredOnce (record { 0 = 2 }) (over_answer (one (call 0 [] (Some 0)))) }
    ensures answer_emitted { ¬ EmitOK (over_answer stop).expressions 0 1 }
{}

/// Switches.
pub fn switches()
    ensures signed_of_eight_bytes { SwitchOK (form.Scalar (signed 8)) (case (I32 (pos 1)) stop true (case Default stop false no_case)) }
    ensures vector { SwitchOK (form.Vector Bi (unsigned 4)) (case Default stop false no_case) }
    ensures another_kind { ¬ SwitchOK (form.Scalar (signed 4)) (case (U32 1) stop false (case Default stop false no_case)) }
    ensures one_value_twice { ¬ SwitchOK (form.Scalar (unsigned 4)) (case (U32 1) stop false (case Default stop false (case (U32 1) stop false no_case))) }
    ensures two_defaults { ¬ SwitchOK (form.Scalar (unsigned 4)) (case Default stop false (case Default stop false no_case)) }
    ensures no_default { ¬ SwitchOK (form.Scalar (unsigned 4)) (case (U32 1) stop false no_case) }
    ensures last_falls_through { ¬ SwitchOK (form.Scalar (unsigned 4)) (case Default stop true no_case) }
{}

/// Returns, barriers, ballots, stores and calls.
pub fn statements()
    ensures value { ReturnOK (answering first_answered (form.Scalar (unsigned 4))) (Some 0) }
    ensures no_value { ¬ ReturnOK (answering first_answered (form.Scalar (unsigned 4))) None }
    ensures value_of_nothing { ¬ ReturnOK (answering None (form.Scalar (unsigned 4))) (Some 0) }
    ensures barrier { BarrierOK (allowing 0 0) WORK_GROUP }
    ensures barrier_of_a_subgroup { ¬ BarrierOK (allowing 1572864 0) SUB_GROUP }
    ensures ballot { BallotOK (allowing 524288 8) (Some 1) }
    ensures ballot_that_is_not_allowed { ¬ BallotOK (allowing 524288 0) (Some 1) }
    ensures stored { StoreOK (storing (form.ValuePointer None (unsigned 4) (space.Storage (record { 0 = 3 }))) (form.Scalar (unsigned 4))) 0 1 }
    ensures stored_where_it_is_read { ¬ StoreOK (storing (form.ValuePointer None (unsigned 4) (space.Storage (record { 0 = 1 }))) (form.Scalar (unsigned 4))) 0 1 }
    ensures called { CallOK (calling (form.Scalar (unsigned 4))) 0 (0 ∷ []) (Some 1) }
    ensures called_with_a_float { ¬ CallOK (calling (form.Scalar (floating 4))) 0 (0 ∷ []) (Some 1) }
    ensures answer_not_taken { ¬ CallOK (calling (form.Scalar (unsigned 4))) 0 (0 ∷ []) None }
{}
