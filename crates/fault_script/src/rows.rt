//! Worked examples of lists of events, of scripts, and of what rows say. They are the contracts of functions that do nothing.

ghost use Rattle.fault_script.specs.EventRows.{EachEvent, Lines, Refused};
ghost use Rattle.fault_script.specs.ScriptRows.{Scripts, RefusedScripts, Claims};

/// Each example is some lines and the events that they list, or the number of the first line that is refused.
pub fn worked_events()
    ensures each { EachEvent }
    ensures lines { Lines }
    ensures refused { Refused }
{}

/// Each example is the bytes of a script and its rows, or none where they are no script.
pub fn worked_scripts()
    ensures scripts { Scripts }
    ensures refused { RefusedScripts }
{}

/// Each example is what a row says of a claim or an execution.
pub fn worked_claims()
    ensures { Claims }
{}
