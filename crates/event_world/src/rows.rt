//! Worked examples of worlds. They are the contract of a function that does nothing.

ghost use Rattle.event_world.specs.Rows.{NobodyWorks, WorkerStops, RepeatedAndLate, ConflictInOrderOfNumbers, LaterFaultFirst};
ghost use Rattle.event_world.specs.Rows.{SkippedEvents, ClaimIsDropped, LateAnswerCountsForNothing, StoppedWorkerDelivers};
ghost use Rattle.event_world.specs.Rows.{StoppedStaysStopped, FinishedIsIdle, SpentIsIdle, EmptyStepIsPassed, FullIsNotEntered};
ghost use Rattle.event_world.specs.Rows.{UnaskedFillAStep};

/// Each example is a small program, a list of events, what is shown, the steps' histories and the end.
pub fn worked_worlds()
    ensures nobody { NobodyWorks }
    ensures stops { WorkerStops }
    ensures late { RepeatedAndLate }
    ensures conflict { ConflictInOrderOfNumbers }
    ensures fault_first { LaterFaultFirst }
    ensures skipped { SkippedEvents }
    ensures dropped { ClaimIsDropped }
    ensures counts_for_nothing { LateAnswerCountsForNothing }
    ensures still_delivers { StoppedWorkerDelivers }
    ensures still_stopped { StoppedStaysStopped }
    ensures idle_again { FinishedIsIdle }
    ensures spent { SpentIsIdle }
    ensures empty_step { EmptyStepIsPassed }
    ensures full { FullIsNotEntered }
    ensures unasked { UnaskedFillAStep }
{}
