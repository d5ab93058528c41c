//! Where a run over events stands between two steps.

ghost use Rattle.std.specs.Prelude.{◌≡◌};
ghost use Rattle.event_world.specs.World.{freed};
ghost use Rattle.event_engine.specs.Scenes.{mode_of, modes_in};

use crate::delivery::Delivery;

/// What a worker is at.
#[derive(Clone, Copy, Debug, PartialEq, Eq)]
pub enum Mode {
    /// It may claim.
    Idle,
    /// It has claimed this routine of the open step, numbered from 0 on.
    Busy(u32),
    /// It does nothing more.
    Stopped,
}

/// Where a run over events stands between two steps: how many events were applied, what each of the 32 workers is at, and what was
/// delivered so far, the earliest first.
#[derive(Drop)]
pub struct Scene {
    pub next: usize,
    pub modes: [Mode; 32],
    pub deliveries: Vec<Delivery>,
}

/// What a worker is at behind a step: what it did not finish is dropped.
fn freed_one(mode: Mode) -> Mode
    ensures { mode_of result ≡ freed (mode_of mode) }
{
    match mode {
        Mode::Idle | Mode::Busy(_) => Mode::Idle,
        Mode::Stopped => Mode::Stopped,
    }
}

/// Behind a step no worker is busy.
pub fn free(modes: &mut [Mode; 32])
    ensures { modes_in modes.new ≡ λ who. freed (modes_in modes.old who) }
{
    for who in 0..32usize {
        modes[who] = freed_one(modes[who]);
    }
}
