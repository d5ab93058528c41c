//! Worked rows of what programs mean: what is charged, what is evaluated before what, what operators give, what routines read, write and add to, how loops go, and what locals hold.
//! Each row is a small program as a tree, with a text that spells it above its definition, and what it writes, computed. They are the contracts of functions that do nothing.
#![tactic(auto)]

ghost use Rattle.csl_tree.specs.declared.program.BinaryOp.TheVariants.{Div, Mul, Rem};
ghost use Rattle.meaning_rows.specs.Charges as charges;
ghost use Rattle.meaning_rows.specs.Loops as loops;
ghost use Rattle.meaning_rows.specs.Operators as operators;
ghost use Rattle.meaning_rows.specs.Order as order;
ghost use Rattle.meaning_rows.specs.Scopes as scopes;
ghost use Rattle.meaning_rows.specs.Trees as trees;
ghost use Rattle.meaning_rows.specs.Words as words;

/// What takes a unit of fuel, and when: steps and calls.
pub fn charges_of_steps_and_calls()
    ensures width_and_step { charges.WidthAndStep }
    ensures no_unit_for_step { charges.NoUnitForStep }
    ensures width_before_unit { charges.WidthBeforeUnit }
    ensures unit_for_each_step { charges.UnitForEachStep }
    ensures no_unit_for_second_step { charges.NoUnitForSecondStep }
    ensures unit_for_each_call { charges.UnitForEachCall }
    ensures no_unit_for_outer_call { charges.NoUnitForOuterCall }
    ensures argument_before_unit { charges.ArgumentBeforeUnit }
    ensures unit_then_too_deep { charges.UnitThenTooDeep }
    ensures unit_before_too_deep { charges.UnitBeforeTooDeep }
    ensures routine_too_deep { charges.RoutineTooDeep }
    ensures routine_spent { charges.RoutineSpent }
{}

/// What is evaluated before what.
pub fn order_of_evaluation()
    ensures index_before_value { order.IndexBeforeValue trees.set }
    ensures index_before_added { order.IndexBeforeValue trees.add_to }
    ensures value_before_test { order.ValueBeforeTest trees.set }
    ensures added_before_test { order.ValueBeforeTest trees.add_to }
    ensures inner_index_before_value { order.InnerIndexIsTested trees.set }
    ensures inner_index_before_added { order.InnerIndexIsTested trees.add_to }
    ensures index_is_kept { order.IndexIsKept }
    ensures item_is_read_last { order.ItemIsReadLast }
    ensures operands_in_order { order.OperandsInOrder }
    ensures arguments_in_order { order.ArgumentsInOrder }
    ensures items_in_order { order.ItemsInOrder }
    ensures left_traps_first { order.LeftTrapsFirst }
    ensures left_overflows_first { order.LeftOverflowsFirst }
    ensures first_item_traps { order.FirstItemTraps }
    ensures nothing_of_the_line { order.NothingOfTheLine }
    ensures right_operand_skipped { order.RightOperandSkipped }
    ensures right_of_or { order.RightOfOr }
    ensures right_of_and { order.RightOfAnd }
    ensures later_arm_skipped { order.LaterArmSkipped }
    ensures assertion_holds { order.AssertionHolds }
    ensures assertion_fails { order.AssertionFails }
    ensures asserted_value_traps { order.AssertedValueTraps }
    ensures later_width_before_bad_width { order.LaterWidthBeforeBadWidth }
    ensures first_width_traps { order.FirstWidthTraps }
    ensures first_width_overflows { order.FirstWidthOverflows }
{}

/// What the operators give on truths and on numbers, and where they trap.
pub fn values_of_operators()
    ensures equal_truths { operators.EqualTruths }
    ensures different_truths { operators.DifferentTruths }
    ensures conjunctions { operators.Conjunctions }
    ensures disjunctions { operators.Disjunctions }
    ensures negations { operators.Negations }
    ensures equal_numbers { operators.EqualNumbers }
    ensures different_numbers { operators.DifferentNumbers }
    ensures below { operators.Below }
    ensures at_most { operators.AtMost }
    ensures above { operators.Above }
    ensures at_least { operators.AtLeast }
    ensures below_zero { operators.BelowZero }
    ensures quotients { operators.Quotients }
    ensures remainders { operators.Remainders }
    ensures grouped_to_the_left { operators.GroupedToTheLeft }
    ensures quotient_by_zero { operators.ZeroDivisor Div }
    ensures remainder_by_zero { operators.ZeroDivisor Rem }
    ensures least_number { operators.LeastNumber }
    ensures least_times_minus_one { operators.LeastByMinusOne Mul }
    ensures least_quotient { operators.LeastByMinusOne Div }
    ensures least_remainder { operators.LeastByMinusOne Rem }
    ensures least_has_no_opposite { operators.LeastHasNoOpposite }
    ensures above_the_greatest { operators.AboveTheGreatest }
    ensures below_the_least { operators.BelowTheLeast }
{}

/// What routines read, write and add to, and what a tally word is in main.
pub fn words_of_routines()
    ensures own_sum_overflows { words.OwnSumOverflows }
    ensures running_sum_overflows { words.RunningSumOverflows }
    ensures sum_begins_at_zero { words.SumBeginsAtZero }
    ensures total_is_exact { words.TotalIsExact }
    ensures least_total_is_named { words.LeastTotalIsNamed }
    ensures tally_in_main { words.TallyInMain }
    ensures tally_overflows_in_main { words.TallyOverflowsInMain }
    ensures adds_by_calls { words.AddsByCalls }
    ensures least_word_is_named { words.LeastWordIsNamed }
    ensures conflict_before_trap { words.ConflictBeforeTrap }
    ensures trap_is_own_cause { words.TrapIsOwnCause }
    ensures adding_is_writing { words.AddingIsWriting }
    ensures first_values { words.FirstValues }
    ensures own_writes_alone { words.OwnWritesAlone }
    ensures last_write_counts { words.LastWriteCounts }
    ensures quotient_overflows_in_routine { words.OverflowInRoutine Div }
    ensures remainder_overflows_in_routine { words.OverflowInRoutine Rem }
{}

/// Turns of loops with their units of fuel, and what leaves a loop.
pub fn turns_of_loops()
    ensures unit_for_each_turn { loops.UnitForEachTurn }
    ensures no_unit_for_last_turn { loops.NoUnitForLastTurn }
    ensures no_unit_for_test { loops.NoUnitForTest }
    ensures step_before_unit { loops.StepBeforeUnit }
    ensures unit_before_turn { loops.UnitBeforeTurn }
    ensures test_traps { loops.TestTraps }
    ensures unit_before_test { loops.UnitBeforeTest }
    ensures continue_goes_to_step { loops.ContinueGoesToStep }
    ensures no_unit_in_for { loops.NoUnitInFor }
    ensures continue_goes_to_test { loops.ContinueGoesToTest }
    ensures no_unit_in_while { loops.NoUnitInWhile }
    ensures break_leaves_inner { loops.BreakLeavesInner }
    ensures no_unit_after_break { loops.NoUnitAfterBreak }
    ensures return_leaves_loops { loops.ReturnLeavesLoops }
    ensures no_unit_before_return { loops.NoUnitBeforeReturn }
    ensures loops_end { loops.LoopsEnd }
    ensures return_ends_main { loops.ReturnEndsMain }
    ensures return_ends_routine { loops.ReturnEndsRoutine }
{}

/// What locals hold, and how long they last.
pub fn scopes_of_locals()
    ensures block_ends { scopes.BlockEnds }
    ensures loop_ends { scopes.LoopEnds }
    ensures own_locals { scopes.OwnLocals }
    ensures local_overflows { scopes.LocalOverflows }
    ensures truths_in_locals { scopes.TruthsInLocals }
{}
