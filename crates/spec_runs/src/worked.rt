//! Runs worked out by hand, each as the machine computes it.
ghost use Rattle.std.specs.Prelude.{◌≡◌, [], ◌∷◌, Some, None, pos};
ghost use Rattle.ir_blocks.specs.judged.Places.{here, later, inside};
ghost use Rattle.ir_blocks.specs.judged.Shapes.{loop_body, loop_continuing, accepting, case_at};
ghost use Rattle.spec_runs.specs.judged.Events.{entered, executed, introduced_expression, named, sampled, used, passed, returned, fell_off, escaped};
ghost use Rattle.spec_runs.specs.judged.Machine.{trace_of};
ghost use Rattle.spec_runs.specs.judged.Scoping.{all_operands, checked_operands};
ghost use Rattle.spec_runs.specs.found.Worked.{calling, module_of, skipping, emitting, breaking, falling, sampling, handing_on, passing, escaping, using_too_early};

/// A run that uses an expression that a continue skipped.
pub fn skipped_use()
    ensures { trace_of checked_operands (module_of (skipping ∷ [])) calling (pos 1 ∷ pos 1 ∷ []) 9
        ≡ entered 0 ∷ executed calling here ∷ passed calling skipping [] ∷ entered 1 ∷ executed skipping here ∷ executed skipping (inside loop_body here) ∷ used skipping [] [] 0
        ∷ executed skipping (inside loop_body (inside accepting here)) ∷ used skipping [] (1 ∷ []) 1
        ∷ fell_off skipping (Some (inside loop_body (inside accepting here))) ∷ fell_off calling (Some here) ∷ [] }
{}

/// The same function with nothing skipped: the emitted expression is live.
pub fn live_use()
    ensures { trace_of checked_operands (module_of (skipping ∷ [])) skipping (pos 0 ∷ pos 1 ∷ []) 9
        ≡ entered 0 ∷ executed skipping here ∷ executed skipping (inside loop_body here) ∷ used skipping [] [] 0
        ∷ executed skipping (inside loop_body (later here)) ∷ introduced_expression skipping 1 ∷ used skipping (1 ∷ []) [] 1
        ∷ fell_off skipping (Some (inside loop_body (later here))) ∷ [] }
{}

/// The first run with all operands recorded: it uses an expression that is skipped and not live.
pub fn skipped_use_of_all()
    ensures { trace_of all_operands (module_of (skipping ∷ [])) calling (pos 1 ∷ pos 1 ∷ []) 9
        ≡ entered 0 ∷ executed calling here ∷ passed calling skipping [] ∷ entered 1 ∷ executed skipping here ∷ executed skipping (inside loop_body here) ∷ used skipping [] [] 0
        ∷ executed skipping (inside loop_body (inside accepting here)) ∷ used skipping [] (1 ∷ []) 1
        ∷ fell_off skipping (Some (inside loop_body (inside accepting here))) ∷ fell_off calling (Some here) ∷ [] }
{}

/// A run with all operands recorded, of a function that emits an expression and not its operand: it uses one that is not live. The
/// function is valid without `STRICT_SCOPE`.
pub fn operand_not_emitted()
    ensures { trace_of all_operands (module_of (emitting 2 ∷ [])) calling [] 9
        ≡ entered 0 ∷ executed calling here ∷ passed calling (emitting 2) [] ∷ entered 1 ∷ executed (emitting 2) here ∷ introduced_expression (emitting 2) 2 ∷ used (emitting 2) [] [] 1
        ∷ fell_off (emitting 2) (Some here) ∷ fell_off calling (Some here) ∷ [] }
{}

/// The same with the operand earlier in the range: it is live by then.
pub fn operand_in_the_range()
    ensures { trace_of all_operands (module_of (emitting 1 ∷ [])) calling [] 9
        ≡ entered 0 ∷ executed calling here ∷ passed calling (emitting 1) [] ∷ entered 1 ∷ executed (emitting 1) here ∷ introduced_expression (emitting 1) 1 ∷ used (emitting 1) [] [] 0
        ∷ introduced_expression (emitting 1) 2 ∷ used (emitting 1) (1 ∷ []) [] 1 ∷ fell_off (emitting 1) (Some here) ∷ fell_off calling (Some here) ∷ [] }
{}

/// A run that reaches the end of a function with a result, after a break.
pub fn falls_by_a_break()
    ensures { trace_of checked_operands (module_of (breaking ∷ [])) breaking (pos 7 ∷ []) 9
        ≡ entered 0 ∷ executed breaking here ∷ used breaking [] [] 0 ∷ executed breaking (inside (case_at 0) here) ∷ fell_off breaking (Some (inside (case_at 0) here)) ∷ [] }
{}

/// A run that enters a switch at its default case, falls through and returns.
pub fn falls_through()
    ensures { trace_of checked_operands (module_of (falling ∷ [])) falling (pos 7 ∷ []) 9
        ≡ entered 0 ∷ executed falling here ∷ used falling [] [] 0 ∷ executed falling (inside (case_at 1) here) ∷ returned falling None ∷ [] }
{}

/// A run that samples, through two calls and an operand, the arguments of the first caller.
pub fn samples_what_is_passed()
    ensures { trace_of checked_operands (module_of (sampling ∷ handing_on ∷ [])) passing [] 9
        ≡ entered 0 ∷ executed passing here ∷ named 0 ∷ named 1 ∷ used passing [] [] 0 ∷ used passing [] [] 1 ∷ passed passing handing_on (0 ∷ 1 ∷ []) ∷ entered 1
        ∷ executed handing_on here ∷ used handing_on [] [] 0 ∷ used handing_on [] [] 1 ∷ passed handing_on sampling (0 ∷ 1 ∷ []) ∷ entered 2
        ∷ executed sampling here ∷ introduced_expression sampling 4 ∷ sampled 0 1
        ∷ fell_off sampling (Some here) ∷ fell_off handing_on (Some here) ∷ fell_off passing (Some here) ∷ [] }
{}

/// A run ends early if no step is left, or if an answer is needed and none is left.
pub fn cut_runs()
    ensures no_step { trace_of checked_operands (module_of (breaking ∷ [])) breaking (pos 7 ∷ []) 0 ≡ entered 0 ∷ [] }
    ensures no_answer { trace_of checked_operands (module_of (breaking ∷ [])) breaking [] 9 ≡ entered 0 ∷ executed breaking here ∷ used breaking [] [] 0 ∷ [] }
{}

/// A return in a continuing block escapes, and is not recorded as a return.
pub fn escape()
    ensures { trace_of checked_operands (module_of []) escaping [] 9
        ≡ entered 0 ∷ executed escaping here ∷ executed escaping (inside loop_continuing here) ∷ escaped ∷ [] }
{}

/// A use of an expression that is neither live nor skipped, in a function that no valid module has.
pub fn use_of_nothing()
    ensures { trace_of checked_operands (module_of []) using_too_early (pos 0 ∷ []) 9
        ≡ entered 0 ∷ executed using_too_early here ∷ used using_too_early [] [] 1 ∷ fell_off using_too_early (Some here) ∷ [] }
{}
