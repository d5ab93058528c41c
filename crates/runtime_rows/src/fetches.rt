//! Events that fetch pages.

ghost use Rattle.std.specs.Prelude.{◌≤◌, length};
ghost use Rattle.event_world.specs.Law.{Each, IsOfWorker};

use crate::alone::module_of;
use cal_base::NoMemory;
use calypso_engine::RunOptions;
use calypso_engine::team::Team;
use code_verify::Verified;
use event_engine::play::play_step;
use event_engine::scene::{Mode, Scene};
use event_world::Event;
use fault_script::Script;
use routine_vm::first_image;
use std::alloc::Global;
use std::test::*;
use worker_gate::Worker;

/// b[id] = a[id] for 64 routines
const COPY: &str =
    "43534c318001000000000102010105100110011500401640401c01010c100000060c190b008004200001100000020311001a001c";

/// How many pages this worker fetched, where there is such a worker.
fn pages_of(workers: &[Worker], who: usize) -> Option<u64> {
    Some(workers.get(who)?.tally().pages)
}

/// Plays one step of one routine of the first block by these events. How many pages worker 3 fetched.
fn fetched(alloc: Global, code: &Verified, events: &[Event]) -> Result<Option<u64>, NoMemory>
    requires workers { Each IsOfWorker events.now }
    requires block { 1 ≤ length code.now.blocks }
{
    let script = Script::none(alloc);
    let options = RunOptions {
        workers: 32,
        fuel: 9,
        frames: 2,
        script: &script,
        steps: false,
        log: None,
    };
    let mut image = first_image(alloc, code)?;
    let mut scene = Scene {
        next: 0,
        modes: [Mode::Idle; 32],
        deliveries: Vec::new(alloc),
    };
    let mut team = Team::make(alloc, &options, &image, code)?;
    let widths = [1];
    let played = play_step(
        alloc, &options, events, 0, &mut image, code, 0, &widths, 1, &mut scene, &mut team,
    );
    let pages = pages_of(team.workers.as_slice(), 3);
    team.end();
    match played {
        Ok(_) => Ok(pages),
        Err(wanted) => Err(wanted),
    }
}

#[test]
fn an_event_fetches_a_page(rt: HostRuntime) -> Result<(), Fail> {
    let alloc = rt.alloc();
    let code = module_of(alloc, COPY)?;
    if code.module().blocks.is_empty() {
        return Err(Fail::from("a block"));
    }
    let twice = [
        Event::Fetch { who: 3, page: 0 },
        Event::Fetch { who: 3, page: 0 },
        Event::Fetch { who: 3, page: 9 },
    ];
    let stopped = [Event::Stop { who: 3 }, Event::Fetch { who: 3, page: 0 }];
    assert!(rt; fetched(alloc, &code, &twice)? == Some(1));
    assert!(rt; fetched(alloc, &code, &stopped)? == Some(0));
    Ok(())
}
