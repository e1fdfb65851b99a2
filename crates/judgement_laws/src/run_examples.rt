//! Runs in which `Continue` skips a statement, and events that are not safe.
ghost use Rattle.std.specs.Prelude.{◌≡◌, [], ◌∷◌, Some, None, pos};
ghost use Rattle.ir_blocks.specs.judged.Places.{here, later, inside};
ghost use Rattle.ir_blocks.specs.judged.Shapes.{loop_body, accepting, case_at};
ghost use Rattle.spec_runs.specs.judged.Events.{entered, executed, introduced_expression, used, passed, returned, fell_off, escaped};
ghost use Rattle.spec_runs.specs.judged.FinalSwitches.{LeavesFinalSwitch};
ghost use Rattle.spec_runs.specs.judged.Good.{DepthOK, TypesOK, LiveOK, FallsOK, NoEscape};
ghost use Rattle.spec_runs.specs.judged.Machine.{trace_of};
ghost use Rattle.spec_runs.specs.judged.Scoping.{checked_operands};
ghost use Rattle.spec_runs.specs.found.Worked.{module_of, calling, skipping, breaking, using_too_early};
ghost use Rattle.judgement_laws.specs.found.RunExamples.{answered, continuing, nested};

/// `Continue` skips the rest of the loop body, at its top level, in the same iteration.
pub fn skips()
    ensures skipped { trace_of checked_operands (module_of []) continuing (pos 1 ∷ pos 1 ∷ []) 9
        ≡ entered 0 ∷ executed continuing here ∷ executed continuing (inside loop_body here) ∷ used continuing [] [] 0 ∷ executed continuing (inside loop_body (inside accepting here)) ∷ used continuing [] (2 ∷ []) 2
        ∷ fell_off continuing (Some (inside loop_body (inside accepting here))) ∷ [] }
    ensures next_turn { trace_of checked_operands (module_of []) continuing (pos 1 ∷ pos 0 ∷ pos 0 ∷ pos 1 ∷ []) 9
        ≡ entered 0 ∷ executed continuing here ∷ executed continuing (inside loop_body here) ∷ used continuing [] [] 0 ∷ executed continuing (inside loop_body (inside accepting here)) ∷ used continuing [] (2 ∷ []) 2
        ∷ executed continuing (inside loop_body here) ∷ used continuing [] [] 0 ∷ executed continuing (inside loop_body (later here)) ∷ introduced_expression continuing 2 ∷ used continuing (2 ∷ []) [] 2
        ∷ fell_off continuing (Some (inside loop_body (later here))) ∷ [] }
    ensures of_an_inner_loop { trace_of checked_operands (module_of []) nested (pos 1 ∷ pos 1 ∷ []) 9
        ≡ entered 0 ∷ executed nested here ∷ executed nested (inside loop_body here) ∷ executed nested (inside loop_body (inside loop_body here)) ∷ used nested [] [] 0
        ∷ executed nested (inside loop_body (later here)) ∷ introduced_expression nested 1 ∷ used nested (1 ∷ []) [] 1
        ∷ fell_off nested (Some (inside loop_body (later here))) ∷ [] }
{}

/// A function with a result that breaks out of its last switch falls off its end, and its caller continues as if it had returned.
pub fn falls_in_a_call()
    ensures { trace_of checked_operands (module_of (breaking ∷ [])) answered (pos 7 ∷ []) 9
        ≡ entered 0 ∷ executed answered here ∷ passed answered breaking [] ∷ entered 1 ∷ executed breaking here ∷ used breaking [] [] 0 ∷ executed breaking (inside (case_at 0) here)
        ∷ fell_off breaking (Some (inside (case_at 0) here)) ∷ introduced_expression answered 0 ∷ fell_off answered (Some here) ∷ [] }
{}

/// Events that are not safe, and safe ones for comparison.
pub fn events()
    ensures deep { ¬ DepthOK 0 (entered 1) }
    ensures not_live { ¬ LiveOK (used using_too_early [] [] 1) }
    ensures skipped { LiveOK (used skipping [] (1 ∷ []) 1) }
    ensures always_live { LiveOK (used using_too_early [] [] 0) }
    ensures value_of_no_result { ¬ TypesOK (module_of []) (returned calling (Some 0)) }
    ensures no_value { ¬ TypesOK (module_of []) (returned breaking None) }
    ensures too_few { ¬ TypesOK (module_of []) (passed skipping calling (0 ∷ [])) }
    ensures fallen_without_a_break { ¬ FallsOK (fell_off breaking None) }
    ensures fallen_by_a_switch { ¬ FallsOK (fell_off breaking (Some here)) }
    ensures escape { ¬ NoEscape escaped }
{}

/// A break out of the switch that a body ends with.
pub fn final_break()
    ensures { LeavesFinalSwitch breaking.body (inside (case_at 0) here) }
{}
