//! Worked examples of what programs mean. They are the contract of a function that does nothing.

ghost use Rattle.csl_tree.specs.declared.program.BinaryOp.TheVariants.{Div, Rem};
ghost use Rattle.std.specs.Prelude.{[], ◌∷◌};
ghost use Rattle.csl_meaning.specs.Rows as rows;

/// Each example is a small program as a tree, and what it writes.
pub fn worked_rows()
    ensures nothing_is_done { rows.NothingIsDone }
    ensures lines_of_items { rows.LinesOfItems }
    ensures sum_of_squares { rows.SumOfSquares }
    ensures one_step { rows.OneStepIsDone }
    ensures fuel_for_squares { rows.FuelForSquares }
    ensures no_fuel_for_squares { rows.NoFuelForSquares }
    ensures swapped_pair { rows.SwappedPair }
    ensures raised_twice { rows.RaisedTwice }
    ensures block_of_width_zero { rows.BlockOfWidthZero }
    ensures first_block_fails { rows.FirstBlockFails }
    ensures second_block_fails { rows.SecondBlockFails }
    ensures different_writes { rows.WritersInConflict rows.id }
    ensures equal_writes { rows.WritersInConflict (rows.number 0) }
    ensures least_pair_in_conflict { rows.LeastPairInConflict }
    ensures trapped_writes_nothing { rows.TrappedWritesNothing }
    ensures least_faulty_is_named { rows.LeastFaultyIsNamed }
    ensures sum_of_tallies { rows.SumOfTallies }
    ensures total_out_of_range { rows.TotalOutOfRange }
    ensures negative_width { rows.BadWidths (rows.minus (rows.number 1) ∷ []) }
    ensures widths_too_large { rows.BadWidths (rows.number 65536 ∷ rows.number 1 ∷ []) }
    ensures overflow_by_quotient { rows.OverflowInMain Div }
    ensures overflow_by_remainder { rows.OverflowInMain Rem }
    ensures fuel_for_three_turns { rows.FuelForThreeTurns }
    ensures no_fuel_for_four_turns { rows.NoFuelForFourTurns }
    ensures calls_too_deep { rows.CallsTooDeep }
    ensures right_is_skipped { rows.RightIsSkipped }
    ensures bad_width_comes_first { rows.BadWidthComesFirst }
    ensures fuel_of_their_own { rows.FuelOfTheirOwn }
    ensures routine_spends_its_fuel { rows.RoutineSpendsItsFuel }
    ensures calls_nest { rows.CallsNest }
    ensures calls_nest_too_deep { rows.CallsNestTooDeep }
    ensures value_before_range { rows.ValueBeforeRange }
    ensures set_behind_an_array { rows.OutsideArray rows.sets_behind }
    ensures read_before_an_array { rows.OutsideArray rows.reads_before }
    ensures value_before_reading { rows.ValueBeforeReading }
    ensures leaving_loops { rows.LeavingLoops }
    ensures fuel_for_products { rows.FuelForProducts }
    ensures no_fuel_for_products { rows.NoFuelForProducts }
{}
