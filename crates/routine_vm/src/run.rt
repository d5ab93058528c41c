//! What runs, and where its steps lead.

ghost use Rattle.routine_vm.specs.Frames.{Spends};

use crate::frame::Frame;
use crate::waiting::Waiting;
use cal_base::Cause;

/// Main, or a routine: the call that runs, those that wait for it, and the units of fuel that are left.
#[derive(Drop)]
pub struct Run {
    pub call: Frame,
    pub waiting: Waiting,
    pub fuel: u32,
}

/// Where a step leads.
#[derive(Clone, Copy, PartialEq, Eq, Debug)]
pub enum Led {
    /// To the next state.
    On,
    /// To the end.
    Ends,
    Traps(Cause),
    /// Nowhere yet: the instruction shows a line or opens a step.
    Event,
}

/// Takes one unit of fuel, if there is one.
pub fn spend(fuel: &mut u32) -> bool
    ensures { Spends fuel.old result fuel.new }
{
    if *fuel == 0 {
        return false;
    }
    *fuel -= 1;
    true
}
