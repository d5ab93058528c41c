//! Runs with little fuel, by the call below the commands.

use cal_base::{Cause, MemSink, RunEnd};
use csl_reader::read_program;
use std::alloc::Global;
use std::test::Fail;
use tree_eval::eval;

/// A program, its fuel, how its run ends, and what the output gets.
type Row = (&'static [u8], u32, RunEnd, &'static [u8]);

/// How the run of a text ends, where it is an accepted program.
fn end_of(alloc: Global, text: &[u8], fuel: u32, out: &mut MemSink) -> Option<RunEnd> {
    if text.len() > 1_048_576 {
        return None;
    }
    match read_program(alloc, text) {
        Ok(program) => eval(alloc, &program, fuel, out).ok(),
        Err(_) => None,
    }
}

/// The product of two matrices: two steps, and 64 turns of main.
const PRODUCTS: &[u8] =
    b"shared { int a[64]; int b[64]; int c[64]; } int cell(int r, int q) { int v = 0; for (int k = 0; k < 8; k += 1) { v += a[r * 8 + k] * b[k * 8 + q]; } return v; } main { parbegin routine[64](int w, int id) { a[id] = id / 8 + id % 8; if (id / 8 == id % 8) { b[id] = 2; } } parend; parbegin routine[64](int w, int id) { c[id] = cell(id / 8, id % 8); } parend; int s = 0; for (int i = 0; i < 64; i += 1) { s += c[i]; } print(\"sum\", s, \"last\", c[63]); }";

#[test]
fn runs_with_little_fuel(rt: HostRuntime) -> Result<(), Fail> {
    let alloc = rt.alloc();
    let rows: [Row; 5] = [
        (
            b"shared { } main { print(\"sum\", 1 + -3); }",
            3,
            RunEnd::Done { steps: 0 },
            b"sum -2\n",
        ),
        (
            b"shared { } main { int i = 0; while (i < 3) { i += 1; } print(i); }",
            3,
            RunEnd::Done { steps: 0 },
            b"3\n",
        ),
        (
            b"shared { } main { int i = 0; while (i < 4) { i += 1; } print(i); }",
            3,
            RunEnd::MainFault {
                after: 0,
                cause: Cause::FuelSpent,
            },
            b"",
        ),
        (
            PRODUCTS,
            66,
            RunEnd::Done { steps: 2 },
            b"sum 896 last 28\n",
        ),
        (
            PRODUCTS,
            65,
            RunEnd::MainFault {
                after: 2,
                cause: Cause::FuelSpent,
            },
            b"",
        ),
    ];
    for (text, fuel, end, out) in rows {
        let mut sink = MemSink::make(alloc, 7, 64, Vec::new(alloc))?;
        assert_eq!(rt; end_of(alloc, text, fuel, &mut sink), Some(end));
        assert_eq!(rt; sink.bytes(), out);
    }
    Ok(())
}
