//! Worked examples of fault lists. They are the contract of a function that does nothing.

ghost use Rattle.type_check.specs.Rows as rows;

/// Each example is a small program as a tree, and all its faults in order.
pub fn worked_rows()
    ensures declared_twice { rows.DeclaredTwice }
    ensures read_in_a_routine { rows.ReadInARoutine }
    ensures set_by_a_call { rows.SetByACall }
    ensures no_faults { rows.NoFaults }
    ensures own_value { rows.OwnValue }
    ensures end_of_a_block { rows.EndOfABlock }
    ensures end_of_a_for { rows.EndOfAFor }
    ensures locals_of_main { rows.LocalsOfMain }
    ensures called_too_early { rows.CalledTooEarly }
    ensures wrong_uses { rows.WrongUses }
    ensures wrong_types { rows.WrongTypes }
    ensures bad_parts { rows.BadParts }
    ensures wrong_arguments { rows.WrongArguments }
    ensures wrong_returns { rows.WrongReturns }
    ensures not_in_loops { rows.NotInLoops }
    ensures shown_elsewhere { rows.ShownElsewhere }
    ensures tally_through_calls { rows.TallyThroughCalls }
    ensures wrong_sizes { rows.WrongSizes }
    ensures wrong_params { rows.WrongParams }
    ensures same_place { rows.SamePlace }
    ensures past_nothing { rows.PastNothing }
    ensures largest_array { rows.LargestArray }
    ensures out_of_order { rows.OutOfOrder }
    ensures nothing_and_bool { rows.NothingAndBool }
    ensures many_locals { rows.ManyLocals }
    ensures enough_locals { rows.EnoughLocals }
    ensures many_routine_locals { rows.ManyRoutineLocals }
    ensures many_items { rows.ManyItems }
    ensures many_blocks { rows.ManyBlocks }
    ensures many_functions { rows.ManyFunctions }
{}
