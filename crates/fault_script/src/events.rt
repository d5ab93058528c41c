//! Lists of events.

ghost use Rattle.std.specs.Prelude.{ℕ, ◌≡◌, ◌≤◌, [], ◌++◌, length, true, false, Ok, Err, IfOk, OnOk};
ghost use Rattle.std.specs.List.{cons_option};
ghost use Rattle.fault_script.specs.Events as events;
ghost use Rattle.fault_script.specs.declared.error.EventsError.TheVariants.{Refused};

use crate::error::EventsError;
use crate::lines::{at_blank, first_line};
use crate::number::worker_in;
use decimal_number::number_between;
use event_world::Event;
use std::alloc::Global;

/// A worker fetches a page.
fn fetch_in(text: &[u8]) -> Option<Event>
    ensures { result ≡ events.fetch_in text.now }
{
    let (who, page) = at_blank(text);
    match (worker_in(who), number_between(page, 0, u32::MAX)) {
        (Some(who), Some(page)) => Some(Event::Fetch { who, page }),
        _ => None,
    }
}

/// The event of this name, with what stands behind the name.
fn event_named(name: &[u8], rest: &[u8]) -> Option<Event>
    ensures { result ≡ events.event_named name.now rest.now }
{
    if name == "claim".as_bytes() {
        worker_in(rest).map(|who| Event::Claim { who })
    } else if name == "fetch".as_bytes() {
        fetch_in(rest)
    } else if name == "finish".as_bytes() {
        worker_in(rest).map(|who| Event::Finish { who })
    } else if name == "arrive".as_bytes() {
        number_between(rest, 1, u32::MAX).map(|number| Event::Arrive { number })
    } else if name == "stop".as_bytes() {
        worker_in(rest).map(|who| Event::Stop { who })
    } else {
        None
    }
}

/// Whether the line is empty or begins with `#`.
fn is_skipped(line: &[u8]) -> bool
    ensures { result ≡ events.is_skipped line.now }
{
    match line {
        [] => true,
        [first, ..] => *first == b'#',
    }
}

/// Adds the event of a line that is not skipped.
fn add_line(list: &mut Vec<Event>, line: &[u8], number: u32) -> Result<(), EventsError>
    ensures added { OnOk result (list.new.items ≡ list.old.items ++ cons_option (events.told_by line.now) []) }
    ensures right { OnOk result (events.is_wrong line.now ≡ false) }
    ensures refused { (n : ℕ) → result ≡ Err (Refused n) → (n ≡ number) × (events.is_wrong line.now ≡ true) }
{
    if is_skipped(line) {
        return Ok(());
    }
    let (name, rest) = at_blank(line);
    match event_named(name, rest) {
        Some(event) => {
            list.push(event)?;
            Ok(())
        }
        None => Err(EventsError::Refused { line: number }),
    }
}

/// The events that the bytes list, a line for each. A line is a name, and one blank and a number once or twice: `claim W`, `fetch W P`,
/// `finish W`, `arrive I`, `stop W`. An empty line and one that begins with `#` are skipped.
pub fn read_events(alloc: Global, bytes: &[u8]) -> Result<Vec<Event>, EventsError>
    requires { length bytes.now ≤ 1048576 }
    ensures events { IfOk result (λ list. events.events_of bytes.now ≡ Ok list.items) }
    ensures refused { (n : ℕ) → result ≡ Err (Refused n) → events.events_of bytes.now ≡ Err n }
{
    let mut list = Vec::new(alloc);
    let mut rest = bytes;
    let mut number = 0u32;
    while !rest.is_empty() {
        number += 1;
        let (line, behind) = first_line(rest);
        add_line(&mut list, line, number)?;
        rest = behind;
    }
    Ok(list)
}
