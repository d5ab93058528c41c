//! Steps by hand, call by call.

ghost use Rattle.std.specs.Prelude.{◌≡◌, ◌<◌, ◌≤◌, IfOk, IsFalse, [], ◌∷◌};
ghost use Rattle.std.specs.FinMap.{insert, empty};
ghost use Rattle.cal_base.specs.History.{is_claim, is_arrival, is_caller, anyone, claims_by, arrivals_by};
ghost use Rattle.cal_base.specs.Pages.{first_memory};
ghost use Rattle.step_laws.specs.Rows.{quiet, two_traps, three_writers};
ghost use Rattle.step_rows.specs.Steps.{failed_writes_nothing, total_outside, many, each_its_own, all_to_one};

use cal_base::{
    CALLER, Cause, Claimed, Entry, Image, JobName, KeptUpdate, NoMemory, RoutineEnd, StepFault,
    Verdict,
};
use std::alloc::Global;
use std::process::Abort;
use std::test::Fail;
use step_core::{Core, Finished};

/// Routine 3 divides by zero, and routine 1 is out of range.
struct Traps;

impl JobName for Traps {
    ghost job = { two_traps };
}

/// Routines 1, 2 and 3 write one word.
struct Writers;

impl JobName for Writers {
    ghost job = { three_writers };
}

/// Routine 0 fails, and routine 1 writes what 0 wrote before it failed.
struct Failed;

impl JobName for Failed {
    ghost job = { failed_writes_nothing };
}

/// Two routines add up to a total outside 64 bits.
struct Outside;

impl JobName for Outside {
    ghost job = { total_outside };
}

/// One routine, which writes nothing.
struct One;

impl JobName for One {
    ghost job = { quiet 1 1 };
}

/// Two routines, which write nothing.
struct Two;

impl JobName for Two {
    ghost job = { quiet 1 2 };
}

/// 65,536 routines, each of which writes a word of its own.
struct Apart;

impl JobName for Apart {
    ghost job = { each_its_own many };
}

/// 65,536 routines, each of which adds 1 to one tally word.
struct Together;

impl JobName for Together {
    ghost job = { all_to_one many };
}

/// An update of one word.
fn wrote(alloc: Global, a: u32, v: i64) -> Result<KeptUpdate, NoMemory>
    ensures { IfOk result (λ update. update ≡ insert empty a v) }
{
    let mut update = KeptUpdate::empty(alloc);
    update.put(a, v)?;
    Ok(update)
}

/// A worker claims and is answered so.
fn expect_claim<N: JobName, R: Abort>(rt: &R, core: &mut Core<N>, who: u8, answer: Claimed)
    requires { who < CALLER }
{
    assert_eq!(rt; core.claim(who), answer);
}

/// What a worker delivers gets this verdict.
fn expect_arrival<N: JobName, R: Abort>(
    rt: &R,
    core: &mut Core<N>,
    who: u8,
    done: &Finished<N, KeptUpdate>,
    verdict: Verdict,
)
    requires { who < CALLER }
{
    assert_eq!(rt; core.arrive(who, done), verdict);
}

#[test]
fn a_later_fault_arrives_first(rt: HostRuntime) -> Result<(), Fail> {
    let alloc = rt.alloc();
    let mut image = Image::make(alloc, 5, &[], &[])?;
    let mut core: Core<Traps> = Core::make(alloc, 1, &image, 4)?;
    let zero: Finished<Traps, KeptUpdate> = Finished::of(0, RoutineEnd::Ended, wrote(alloc, 0, 0)?);
    let range = RoutineEnd::Fault(Cause::OutOfRange);
    let one: Finished<Traps, KeptUpdate> = Finished::of(1, range, KeptUpdate::empty(alloc));
    let divided = RoutineEnd::Fault(Cause::DivisionByZero);
    let three: Finished<Traps, KeptUpdate> = Finished::of(3, divided, KeptUpdate::empty(alloc));
    for (who, k) in [(0, 0), (1, 1), (2, 2), (3, 3)] {
        expect_claim(&rt, &mut core, who, Claimed::Work(k));
    }
    expect_arrival(&rt, &mut core, 3, &three, Verdict::First);
    expect_arrival(&rt, &mut core, 3, &three, Verdict::Again);
    assert!(rt; !core.is_complete());
    expect_claim(&rt, &mut core, 4, Claimed::Work(0));
    expect_arrival(&rt, &mut core, 4, &zero, Verdict::First);
    expect_claim(&rt, &mut core, 4, Claimed::Work(1));
    expect_arrival(&rt, &mut core, 4, &one, Verdict::First);
    expect_claim(&rt, &mut core, 4, Claimed::AllDone);
    assert_eq!(rt; core.history().len(), 10);
    let complete = core.is_complete();
    assert!(rt; complete);
    if complete {
        let closed = core.close(&mut image);
        let fault = StepFault::Trap {
            routine: 1,
            cause: Cause::OutOfRange,
        };
        assert_eq!(rt; closed.result, Err(fault));
    }
    Ok(())
}

#[test]
fn a_conflict_is_named_in_any_order(rt: HostRuntime) -> Result<(), Fail> {
    let alloc = rt.alloc();
    let mut image = Image::make(alloc, 1, &[], &[])?;
    let mut core: Core<Writers> = Core::make(alloc, 1, &image, 4)?;
    let zero: Finished<Writers, KeptUpdate> = Finished::of(
        0,
        RoutineEnd::Ended,
        KeptUpdate::empty(alloc),
    );
    let one: Finished<Writers, KeptUpdate> = Finished::of(
        1,
        RoutineEnd::Ended,
        wrote(alloc, 0, 1)?,
    );
    let two: Finished<Writers, KeptUpdate> = Finished::of(
        2,
        RoutineEnd::Ended,
        wrote(alloc, 0, 2)?,
    );
    let three: Finished<Writers, KeptUpdate> = Finished::of(
        3,
        RoutineEnd::Ended,
        wrote(alloc, 0, 3)?,
    );
    for (who, k) in [(0, 0), (1, 1), (2, 2), (3, 3)] {
        expect_claim(&rt, &mut core, who, Claimed::Work(k));
    }
    expect_arrival(&rt, &mut core, 2, &two, Verdict::First);
    expect_arrival(&rt, &mut core, 3, &three, Verdict::First);
    expect_arrival(&rt, &mut core, 1, &one, Verdict::First);
    expect_claim(&rt, &mut core, 4, Claimed::Work(0));
    expect_arrival(&rt, &mut core, 4, &zero, Verdict::First);
    let complete = core.is_complete();
    assert!(rt; complete);
    if complete {
        let closed = core.close(&mut image);
        let fault = StepFault::Conflict {
            routine: 2,
            word: 0,
            other: 1,
        };
        assert_eq!(rt; closed.result, Err(fault));
        assert_eq!(rt; closed.history.len(), 9);
    }
    Ok(())
}

#[test]
fn what_failed_wrote_nothing(rt: HostRuntime) -> Result<(), Fail> {
    let alloc = rt.alloc();
    let mut image = Image::make(alloc, 6, &[], &[])?;
    let mut core: Core<Failed> = Core::make(alloc, 1, &image, 2)?;
    let assertion = RoutineEnd::Fault(Cause::Assertion);
    let zero: Finished<Failed, KeptUpdate> = Finished::of(0, assertion, wrote(alloc, 5, 1)?);
    let one: Finished<Failed, KeptUpdate> = Finished::of(1, RoutineEnd::Ended, wrote(alloc, 5, 1)?);
    expect_claim(&rt, &mut core, 0, Claimed::Work(0));
    expect_claim(&rt, &mut core, 1, Claimed::Work(1));
    expect_arrival(&rt, &mut core, 1, &one, Verdict::First);
    expect_arrival(&rt, &mut core, 0, &zero, Verdict::First);
    let complete = core.is_complete();
    assert!(rt; complete);
    if complete {
        let closed = core.close(&mut image);
        let fault = StepFault::Trap {
            routine: 0,
            cause: Cause::Assertion,
        };
        assert_eq!(rt; closed.result, Err(fault));
        assert_eq!(rt; image.version(0), Some(0));
    }
    Ok(())
}

#[test]
fn a_total_is_outside(rt: HostRuntime) -> Result<(), Fail> {
    let alloc = rt.alloc();
    let mut image = Image::make(alloc, 1, &[0], &[])?;
    let mut core: Core<Outside> = Core::make(alloc, 1, &image, 2)?;
    let most = wrote(alloc, 0, i64::MAX)?;
    let zero: Finished<Outside, KeptUpdate> = Finished::of(0, RoutineEnd::Ended, most);
    let one: Finished<Outside, KeptUpdate> = Finished::of(
        1,
        RoutineEnd::Ended,
        wrote(alloc, 0, 1)?,
    );
    expect_claim(&rt, &mut core, 0, Claimed::Work(0));
    expect_arrival(&rt, &mut core, 0, &zero, Verdict::First);
    expect_claim(&rt, &mut core, 0, Claimed::Work(1));
    expect_arrival(&rt, &mut core, 0, &one, Verdict::First);
    let complete = core.is_complete();
    assert!(rt; complete);
    if complete {
        let closed = core.close(&mut image);
        assert_eq!(rt; closed.result, Err(StepFault::Total { word: 0 }));
    }
    Ok(())
}

fn is_claim_of_caller(entry: &Entry) -> bool
    ensures { result ≡ is_claim is_caller anyone entry.now }
{
    match entry {
        Entry::Claim { who, k: _ } => *who == CALLER,
        Entry::Arrive { .. } => false,
    }
}

fn is_arrival_of_caller(entry: &Entry) -> bool
    ensures { result ≡ is_arrival is_caller entry.now }
{
    match entry {
        Entry::Claim { .. } => false,
        Entry::Arrive {
            who,
            step: _,
            k: _,
            verdict: _,
        } => *who == CALLER,
    }
}

/// Whether the caller claimed something.
fn has_caller_claimed(history: &[Entry]) -> bool
    ensures { IsFalse result → claims_by is_caller history.now ≡ 0 }
{
    match history {
        [] => false,
        [first, rest @ ..] => is_claim_of_caller(first) || has_caller_claimed(rest),
    }
}

/// Whether the caller delivered something.
fn has_caller_delivered(history: &[Entry]) -> bool
    ensures { IsFalse result → arrivals_by is_caller history.now ≡ 0 }
{
    match history {
        [] => false,
        [first, rest @ ..] => is_arrival_of_caller(first) || has_caller_delivered(rest),
    }
}

/// The caller's first claim.
fn first_claim_of_caller(core: &mut Core<One>) -> Option<Claimed> {
    if has_caller_claimed(core.history()) {
        return None;
    }
    Some(core.claim(CALLER))
}

/// The caller's first delivery.
fn first_delivery_of_caller(
    core: &mut Core<One>,
    only: &Finished<One, KeptUpdate>,
) -> Option<Verdict> {
    if has_caller_delivered(core.history()) {
        return None;
    }
    Some(core.arrive(CALLER, only))
}

#[test]
fn workers_claims_and_arrivals_are_bounded(rt: HostRuntime) -> Result<(), Fail> {
    let alloc = rt.alloc();
    let image = Image::make(alloc, 0, &[], &[])?;
    let mut core: Core<One> = Core::make(alloc, 1, &image, 1)?;
    let only: Finished<One, KeptUpdate> = Finished::of(
        0,
        RoutineEnd::Ended,
        KeptUpdate::empty(alloc),
    );
    assert_eq!(rt; core.arrive_held(31, 0, 7), Verdict::Stale);
    for _ in 1..=35 {
        expect_claim(&rt, &mut core, 0, Claimed::Work(0));
    }
    expect_claim(&rt, &mut core, 0, Claimed::Spent);
    assert_eq!(rt; first_claim_of_caller(&mut core), Some(Claimed::Work(0)));
    expect_arrival(&rt, &mut core, 0, &only, Verdict::First);
    for _ in 3..=102 {
        expect_arrival(&rt, &mut core, 0, &only, Verdict::Again);
    }
    expect_arrival(&rt, &mut core, 0, &only, Verdict::Full);
    assert_eq!(rt; core.arrive_held(31, 0, 7), Verdict::Full);
    assert_eq!(rt; core.history().len(), 138);
    assert!(rt; core.is_complete());
    Ok(())
}

#[test]
fn unasked_arrivals_leave_all_to_the_caller(rt: HostRuntime) -> Result<(), Fail> {
    let alloc = rt.alloc();
    let mut image = Image::make(alloc, 0, &[], &[])?;
    let mut core: Core<One> = Core::make(alloc, 1, &image, 1)?;
    let only: Finished<One, KeptUpdate> = Finished::of(
        0,
        RoutineEnd::Ended,
        KeptUpdate::empty(alloc),
    );
    for _ in 1..=102 {
        expect_arrival(&rt, &mut core, 0, &only, Verdict::Unasked);
    }
    expect_arrival(&rt, &mut core, 0, &only, Verdict::Full);
    assert_eq!(rt; core.history().len(), 102);
    assert!(rt; !core.is_complete());
    assert_eq!(rt; first_claim_of_caller(&mut core), Some(Claimed::Work(0)));
    assert_eq!(rt;
        first_delivery_of_caller(&mut core, &only),
        Some(Verdict::First)
    );
    let complete = core.is_complete();
    assert!(rt; complete);
    if complete {
        let closed = core.close(&mut image);
        assert_eq!(rt; closed.result, Ok(()));
        assert_eq!(rt; closed.history.len(), 104);
    }
    Ok(())
}

#[test]
fn an_unasked_answer_is_entered_alone(rt: HostRuntime) -> Result<(), Fail> {
    let alloc = rt.alloc();
    let image = Image::make(alloc, 0, &[], &[])?;
    let mut core: Core<Two> = Core::make(alloc, 1, &image, 2)?;
    let second: Finished<Two, KeptUpdate> = Finished::of(
        1,
        RoutineEnd::Ended,
        KeptUpdate::empty(alloc),
    );
    expect_arrival(&rt, &mut core, 0, &second, Verdict::Unasked);
    assert_eq!(rt; core.history().len(), 1);
    assert!(rt; !core.is_complete());
    expect_claim(&rt, &mut core, 0, Claimed::Work(0));
    Ok(())
}

/// As many routines as a step may have.
fn most_routines() -> u32
    ensures value { result ≡ many }
    ensures limit { many ≤ 65536 }
{
    65536
}

/// A step that begins, of so many routines, on as many words.
fn step_apart(alloc: Global, image: &Image, n: u32) -> Result<Core<Apart>, NoMemory>
    requires size { n ≡ many }
    requires limit { n ≤ 65536 }
    requires memory { image.now.memory ≡ first_memory n [] [] }
{
    Core::make(alloc, 1, image, n)
}

/// What routine k of them did.
fn done_apart(alloc: Global, k: u32) -> Result<Finished<Apart, KeptUpdate>, NoMemory>
    requires { k < many }
{
    let update = wrote(alloc, k, 1)?;
    Ok(Finished::of(k, RoutineEnd::Ended, update))
}

#[test]
fn numbers_are_claimed_twice_round(rt: HostRuntime) -> Result<(), Fail> {
    let alloc = rt.alloc();
    let n = most_routines();
    let mut image = Image::make(alloc, n, &[], &[])?;
    let mut core = step_apart(alloc, &image, n)?;
    for _ in 0..2 {
        for k in 0..n {
            expect_claim(&rt, &mut core, 0, Claimed::Work(k));
        }
    }
    for k in 0..n {
        let done = done_apart(alloc, k)?;
        expect_arrival(&rt, &mut core, 1, &done, Verdict::First);
    }
    expect_claim(&rt, &mut core, 0, Claimed::AllDone);
    let complete = core.is_complete();
    assert!(rt; complete);
    if complete {
        let closed = core.close(&mut image);
        assert_eq!(rt; closed.result, Ok(()));
    }
    let words = image.len();
    assert_eq!(rt; words, 65536);
    for a in 0..words {
        assert_eq!(rt; image.word(a), 1, "word {a}");
    }
    Ok(())
}

/// A step that begins, of so many routines, on one tally word.
fn step_together(alloc: Global, image: &Image, n: u32) -> Result<Core<Together>, NoMemory>
    requires size { n ≡ many }
    requires limit { n ≤ 65536 }
    requires memory { image.now.memory ≡ first_memory 1 (0 ∷ []) [] }
{
    Core::make(alloc, 1, image, n)
}

/// What routine k of them did.
fn done_together(alloc: Global, k: u32) -> Result<Finished<Together, KeptUpdate>, NoMemory>
    requires { k < many }
{
    let update = wrote(alloc, 0, 1)?;
    Ok(Finished::of(k, RoutineEnd::Ended, update))
}

#[test]
fn all_add_to_one_word(rt: HostRuntime) -> Result<(), Fail> {
    let alloc = rt.alloc();
    let n = most_routines();
    let mut image = Image::make(alloc, 1, &[0], &[])?;
    let mut core = step_together(alloc, &image, n)?;
    for k in 0..n {
        let done = done_together(alloc, k)?;
        expect_claim(&rt, &mut core, 0, Claimed::Work(k));
        expect_arrival(&rt, &mut core, 0, &done, Verdict::First);
    }
    let complete = core.is_complete();
    assert!(rt; complete);
    if complete {
        let closed = core.close(&mut image);
        assert_eq!(rt; closed.result, Ok(()));
    }
    let words = image.len();
    assert_eq!(rt; words, 1);
    if words == 1 {
        assert_eq!(rt; image.word(0), 65536);
    }
    Ok(())
}
