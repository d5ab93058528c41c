//! Scripts and lists of events.

use fault_script::{
    Act, Event, EventsError, Script, ScriptError, count_claim, first_tally, read_events,
    read_script,
};
use std::test::*;

const SCRIPT: &str =
    "# two workers\n[[worker]]\nnumber = 3\nstop_at = 5\nlose = [1]\nrepeat = [2, 7]\nhold = [3]\n\n[[worker]]\nnumber = 0\n";

#[test]
fn a_script_is_read_and_followed(rt: HostRuntime) -> Result<(), Fail> {
    let alloc = rt.alloc();
    let script = read_script(alloc, SCRIPT.as_bytes())
        .ok()
        .ok_or("a script")?;
    let row = script.row(alloc, 3).ok().ok_or("a row")?;
    let acts = [
        Act::Lose,
        Act::Repeat,
        Act::Hold,
        Act::Deliver,
        Act::Deliver,
        Act::Deliver,
        Act::Repeat,
    ];
    for (act, i) in acts.iter().zip(1u64..) {
        assert!(rt; row.act(i) == *act);
    }
    assert!(rt; !row.has_stopped(4) && row.has_stopped(5));
    let mut tally = first_tally(&row);
    assert!(rt; count_claim(&row, &mut tally) == Some(Act::Lose));
    assert!(rt;
        tally.who == 3
            && tally.claims == 1
            && tally.executed == 1
            && tally.lost == 1
            && !tally.stopped
    );
    Ok(())
}

#[test]
fn a_worker_without_a_row_only_delivers(rt: HostRuntime) -> Result<(), Fail> {
    let alloc = rt.alloc();
    let script = read_script(alloc, SCRIPT.as_bytes())
        .ok()
        .ok_or("a script")?;
    let row = script.row(alloc, 31).ok().ok_or("a row")?;
    assert!(rt; row.number == 31 && row.act(1) == Act::Deliver && !row.has_stopped(4294967295));
    let none = Script::none(alloc).row(alloc, 32).ok().ok_or("a row")?;
    let mut tally = first_tally(&none);
    assert!(rt; count_claim(&none, &mut tally) == Some(Act::Deliver));
    assert!(rt; tally.who == 32 && tally.executed == 1);
    Ok(())
}

#[test]
fn scripts_are_refused(rt: HostRuntime) -> Result<(), Fail> {
    let alloc = rt.alloc();
    let texts = [
        "worker = 1\n",
        "[[workers]]\nnumber = 0\n",
        "[[worker]]\nnumber = 32\n",
        "[[worker]]\nnumber = 0\nlose = [2, 1]\n",
        "[[worker]]\nnumber = 0\nlose = [1]\nhold = [1]\n",
        "[[worker]]\nnumber = 0\n[[worker]]\nnumber = 0\n",
        "[[worker]]\nnumber = 0\nstop_at = 4294967296\n",
    ];
    for text in texts {
        assert!(rt; read_script(alloc, text.as_bytes()).err() == Some(ScriptError::Refused));
    }
    assert!(rt; read_script(alloc, b"").is_ok());
    assert!(rt; read_script(alloc, b"#\xff\n").err() == Some(ScriptError::Refused));
    Ok(())
}

#[test]
fn events_are_read(rt: HostRuntime) -> Result<(), Fail> {
    let alloc = rt.alloc();
    let text = "# a list\nclaim 0\r\n\nfetch 31 4294967295\nfinish 007\narrive 1\nstop 2";
    let events = read_events(alloc, text.as_bytes()).ok().ok_or("events")?;
    let wanted = [
        Event::Claim { who: 0 },
        Event::Fetch {
            who: 31,
            page: 4294967295,
        },
        Event::Finish { who: 7 },
        Event::Arrive { number: 1 },
        Event::Stop { who: 2 },
    ];
    assert!(rt; events.as_slice() == wanted.as_slice());
    let refused = read_events(alloc, b"#\xff\nclaim 1\nclaim 32\nclaim\n");
    assert!(rt; refused.err() == Some(EventsError::Refused { line: 3 }));
    Ok(())
}
