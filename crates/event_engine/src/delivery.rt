//! What workers delivered in a run over events.

ghost use Rattle.std.specs.Prelude.{◌≡◌, ◌<◌, ◌≤◌, ◌++◌, OnOk};
ghost use Rattle.std.specs.List.{AllByRecursion};
ghost use Rattle.cal_base.specs.declared.step.TheConstants.{CALLER};
ghost use Rattle.cal_base.specs.Claims.{verdict_on};
ghost use Rattle.event_world.specs.World.{after_arrival};

use cal_base::{CALLER, JobName, KeptUpdate, NoMemory};
use std::marker::Model;
use step_core::{Core, Finished};

/// What a worker delivered: the answer of routine k of a step.
#[derive(Drop)]
pub struct Delivery {
    who: u8,
    step: u64,
    k: u32,
}

impl Model for Delivery {
    ghost use Rattle.std.specs.Prelude.{◌<◌};
    ghost use Rattle.cal_base.specs.declared.step.TheConstants.{CALLER};
    ghost use Rattle.event_world.specs.World as world;

    ghost Value = { world.Delivery };

    ghost view = { λ d. record { who = d.who; step = d.step; k = d.k } };

    ghost invariant = { λ d. d.who < CALLER };
}

/// What a worker delivered in the open step, with the answer.
#[derive(Drop)]
pub struct Fresh<N: JobName> {
    who: u8,
    done: Finished<N, KeptUpdate>,
}

impl<N: JobName> Model for Fresh<N> {
    ghost use Rattle.std.specs.Prelude.{◌<◌};
    ghost use Rattle.cal_base.specs.declared.step.TheConstants.{CALLER};
    ghost use Rattle.event_world.specs.World as world;

    ghost Value = { world.Delivery };

    ghost view = { λ d. record { who = d.who; step = N.job.number; k = d.done.k } };

    ghost invariant = { λ d. d.who < CALLER };
}

impl Delivery {
    /// It arrives in a later step.
    pub fn arrive<N: JobName>(&self, core: &mut Core<N>)
        requires { self.now.step < N.job.number }
        ensures worker { self.now.who < CALLER }
        ensures history { core.new ≡ after_arrival core.old self.now.who self.now.step self.now.k
            (verdict_on N.job core.old self.now.who self.now.step self.now.k) }
    {
        core.arrive_held(self.who, self.step, self.k);
    }
}

impl<N: JobName> Fresh<N> {
    /// The answer of a worker.
    pub fn of(who: u8, done: Finished<N, KeptUpdate>) -> Fresh<N>
        requires { who < CALLER }
        ensures { result ≡ record { who = who; step = N.job.number; k = done.k } }
    {
        Fresh { who, done }
    }

    /// It arrives in its step.
    pub fn arrive(&self, core: &mut Core<N>)
        ensures worker { self.now.who < CALLER }
        ensures history { core.new ≡ after_arrival core.old self.now.who self.now.step self.now.k
            (verdict_on N.job core.old self.now.who self.now.step self.now.k) }
    {
        core.arrive(self.who, &self.done);
    }

    /// The same without the answer, which is wanted in its step alone.
    fn behind(&self, step: u64) -> Delivery
        requires { step ≡ N.job.number }
        ensures same { result ≡ self.now }
        ensures step { result.step ≡ step }
    {
        Delivery {
            who: self.who,
            step,
            k: self.done.k,
        }
    }
}

/// What was delivered in a step is kept behind it, without the answers. It takes memory.
pub fn keep<N: JobName>(
    deliveries: &mut Vec<Delivery>,
    step: u64,
    fresh: &[Fresh<N>],
) -> Result<(), NoMemory>
    requires step { step ≡ N.job.number }
    requires older { AllByRecursion (λ d. d.step ≤ step) deliveries.old.items }
    ensures kept { OnOk result (deliveries.new.items ≡ deliveries.old.items ++ fresh.now) }
    ensures older { OnOk result (AllByRecursion (λ d. d.step ≤ step) deliveries.new.items) }
{
    for one in fresh {
        deliveries.push(one.behind(step))?;
    }
    Ok(())
}
