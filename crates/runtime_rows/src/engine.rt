use crate::alone::{module_of, run_alone};
use cal_base::{Cause, MemSink, RunEnd, StepFault};
use calypso_engine::{RunError, RunReport};
use std::test::*;

/// How many claims the caller made; it executed each.
fn claims_of(report: &RunReport) -> Result<u64, Fail> {
    match report.tallies.as_slice() {
        [caller] if caller.claims == caller.executed && caller.who == 32 => Ok(caller.claims),
        _ => Err(Fail::from("the caller's tally")),
    }
}

/// A module, its fuel, what it writes, how it ends, and how often the caller claims.
type Row = (&'static str, u32, &'static str, RunEnd, u64);

const ROWS: &[Row] = &[
    // a Return alone
    (
        "43534c3100000000000000011c",
        1,
        "",
        RunEnd::Done { steps: 0 },
        0,
    ),
    // print(-3)
    (
        "43534c31000000000000000300051f01011c",
        1,
        "-3\n",
        RunEnd::Done { steps: 0 },
        0,
    ),
    // a loop to itself
    (
        "43534c3100000000000000011a00",
        1000,
        "",
        RunEnd::MainFault {
            after: 0,
            cause: Cause::FuelSpent,
        },
        0,
    ),
    // print("a", false); print()
    (
        "43534c3100000001016100000004011f020000021f001c",
        1,
        "a false\n\n",
        RunEnd::Done { steps: 0 },
        0,
    ),
    // a negative width
    (
        "43534c31000000000001020101011c000300012000011c",
        5,
        "",
        RunEnd::MainFault {
            after: 0,
            cause: Cause::BadWidth,
        },
        0,
    ),
    // a[id] = a[1 - id] on 1 and 2, then print(a[0], a[1])
    (
        "43534c310200020002010400000102010107100100021001041500021600021c00060004200001120012011f0201011c",
        9,
        "2 1\n",
        RunEnd::Done { steps: 1 },
        2,
    ),
    // t += id for eight routines, then print(t)
    (
        "43534c310101000000000102010103100114001c0005001020000112001f01011c",
        1,
        "28\n",
        RunEnd::Done { steps: 1 },
        8,
    ),
    // blocks of widths 0 and 2: a[id] = w + id behind a block that fails, then print(a[0], a[1])
    (
        "43534c3102000000000202010103011e1c02010106100110001001031600021c000700000004200002120012011f0201011c",
        9,
        "2 3\n",
        RunEnd::Done { steps: 1 },
        2,
    ),
    // the same with widths 2 and 2
    (
        "43534c3102000000000202010103011e1c02010106100110001001031600021c000700040004200002120012011f0201011c",
        9,
        "",
        RunEnd::StepFailed {
            step: 1,
            fault: StepFault::Trap {
                routine: 0,
                cause: Cause::Assertion,
            },
        },
        1,
    ),
    // the same with the blocks the other way round
    (
        "43534c3102000000000202010106100110001001031600021c02010103011e1c000700040004200002120012011f0201011c",
        9,
        "",
        RunEnd::StepFailed {
            step: 1,
            fault: StepFault::Trap {
                routine: 2,
                cause: Cause::Assertion,
            },
        },
        3,
    ),
    // s = id for two routines
    (
        "43534c3101000000000102010103100113001c000300042000011c",
        9,
        "",
        RunEnd::StepFailed {
            step: 1,
            fault: StepFault::Conflict {
                routine: 1,
                word: 0,
                other: 0,
            },
        },
        2,
    ),
    // a total outside 64 bits
    (
        "43534c31010100000000010201010300feffffffffffffffff0114001c000300042000011c",
        9,
        "",
        RunEnd::StepFailed {
            step: 1,
            fault: StepFault::Total { word: 0 },
        },
        2,
    ),
    // x = x + 1 in two steps, then print(x)
    (
        "43534c3101000000000102010105120000020313001c00070002200001000220000112001f01011c",
        2,
        "2\n",
        RunEnd::Done { steps: 2 },
        2,
    ),
    // the same with a unit less
    (
        "43534c3101000000000102010105120000020313001c00070002200001000220000112001f01011c",
        1,
        "",
        RunEnd::MainFault {
            after: 1,
            cause: Cause::FuelSpent,
        },
        1,
    ),
    // a step of no routines, then print(7)
    (
        "43534c31000000000001020101011c00050000200001000e1f01011c",
        2,
        "7\n",
        RunEnd::Done { steps: 1 },
        0,
    ),
];

#[test]
fn runs_modules_by_the_caller_alone(rt: HostRuntime) -> Result<(), Fail> {
    let alloc = rt.alloc();
    for (spelling, fuel, text, ended, claims) in ROWS {
        let code = module_of(alloc, *spelling)?;
        let mut out = MemSink::make(alloc, 3, 1000, Vec::new(alloc))?;
        let report = run_alone(&rt, alloc, &code, *fuel, 64, &mut out)
            .ok()
            .ok_or("a run")?;
        assert_eq!(rt; out.bytes(), text.as_bytes(), "{spelling}");
        assert_eq!(rt; report.ended, *ended, "{spelling}");
        assert_eq!(rt; claims_of(&report)?, *claims, "{spelling}");
    }
    Ok(())
}

#[test]
fn gives_up_where_the_sink_fails(rt: HostRuntime) -> Result<(), Fail> {
    let alloc = rt.alloc();
    let code = module_of(alloc, "43534c31000000000000000300051f01011c")?;
    let cases: &[(u64, &str)] = &[(1, ""), (2, "-"), (3, "-3")];
    for (call, front) in cases {
        let mut fail = Vec::new(alloc);
        fail.push(*call)?;
        let mut out = MemSink::make(alloc, 1, 1000, fail)?;
        let result = run_alone(&rt, alloc, &code, 1, 64, &mut out);
        assert!(rt; matches!(result, Err(RunError::OutFailed)), "call {call}");
        assert_eq!(rt; out.bytes(), front.as_bytes(), "call {call}");
    }
    Ok(())
}
