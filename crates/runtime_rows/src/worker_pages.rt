//! How many pages a worker fetches, over the steps of a run.

use crate::alone::{module_of, run_alone};
use cal_base::{MemSink, WorkerTally};
use std::test::*;

/// A module, its fuel, how many pages the caller keeps, what the module writes, how often the caller claims, and how many pages it fetches
/// at least and at most.
type Row = (&'static str, u32, u32, &'static str, u64, u64, u64);

/// a[id * 262143] = a[id * 262143] + a[131072] + 1 for two routines in each of three steps, then print(a[0], a[262143])
const FAR: &str =
    "43534c3180801000000000010201010e100100feff1f05100100feff1f0515008080100080801015008080100300020316008080101c01010f100000060c190b0004200001100000020311001a00120012ffff0f1f0201011c";

const ROWS: &[Row] = &[
    // b[id] = a[id] for 64 routines in each of three steps: the page of a never changes
    (
        "43534c318001000000000102010105100110011500401640401c01010c100000060c190b008001200001100000020311001a001c",
        9,
        64,
        "",
        192,
        1,
        1,
    ),
    // a[id] = a[1 - id] on 1 and 2, then print(a[0], a[1])
    (
        "43534c310200020002010400000102010107100100021001041500021600021c00060004200001120012011f0201011c",
        9,
        64,
        "2 1\n",
        2,
        1,
        1,
    ),
    // x = x + 1 in two steps, then print(x): the first step changes the page
    (
        "43534c3101000000000102010105120000020313001c00070002200001000220000112001f01011c",
        2,
        64,
        "2\n",
        2,
        2,
        2,
    ),
    // three pages, two of which every step changes, where each page is kept
    (FAR, 6, 4096, "3 3\n", 6, 7, 7),
    // the same where two are
    (FAR, 6, 2, "3 3\n", 6, 7, 12),
];

#[test]
fn fetches_what_has_changed_alone(rt: HostRuntime) -> Result<(), Fail> {
    let alloc = rt.alloc();
    for (spelling, fuel, frames, text, claims, least, most) in ROWS {
        let code = module_of(alloc, *spelling)?;
        let mut out = MemSink::make(alloc, 3, 1000, Vec::new(alloc))?;
        let report = run_alone(&rt, alloc, &code, *fuel, *frames, &mut out)
            .ok()
            .ok_or("a run")?;
        assert_eq!(rt; out.bytes(), text.as_bytes(), "{spelling}");
        let caller: WorkerTally = match report.tallies.as_slice() {
            [caller] => *caller,
            _ => return Err(Fail::from("the caller's tally")),
        };
        assert_eq!(rt; caller.claims, *claims, "{spelling}");
        assert_eq!(rt; caller.executed, *claims, "{spelling}");
        assert!(rt;
            *least <= caller.pages && caller.pages <= *most,
            "{spelling}"
        );
    }
    Ok(())
}
