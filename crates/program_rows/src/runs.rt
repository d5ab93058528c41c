//! What programs print, and how they end.

use crate::modules::built_is;
use row_calls::call;
use std::alloc::Global;
use std::process::Abort;
use std::sync::Wait;
use std::test::Fail;
use std::thread::Threads;

/// A program, its status, and what the output and the error stream get.
type Row = (&'static [u8], u8, &'static [u8], &'static [u8]);

/// Runs each program by `build` and then `exec`, by `run`, and by `eval`.
fn all_come<R: Threads + Wait + Sync + Abort>(
    rt: &R,
    alloc: Global,
    rows: &[Row],
) -> Result<(), Fail> {
    for (text, status, out, err) in rows {
        if *status != 4 {
            built_is(rt, alloc, text, "m", "1000000", (*status, *out, *err))?;
        }
        for verb in ["run", "eval"] {
            let called = call(rt, alloc, &[verb, "p.csl"], text, Vec::new(alloc))?;
            assert_eq!(rt; called.err.bytes(), *err);
            assert_eq!(rt; called.out.bytes(), *out);
            assert_eq!(rt; called.status, *status);
        }
    }
    Ok(())
}

#[test]
fn steps(rt: HostRuntime) -> Result<(), Fail> {
    let rows: &[Row] = &[
        (b"shared { } main { }", 0, b"", b""),
        (
            b"shared { int a[4]; } main { parbegin routine[4](int w, int id) { a[id] = id * id; } parend; print(\"sum\", a[0] + a[1] + a[2] + a[3]); }",
            0,
            b"sum 14\n",
            b"",
        ),
        (
            b"shared { int a[4]; int s; } main { parbegin routine[4](int w, int id) { a[id] = id * id; } parend; for (int i = 0; i < 4; i += 1) { s += a[i]; } print(\"sum\", s); }",
            0,
            b"sum 14\n",
            b"",
        ),
        (
            b"shared { int a[2] = {1, 2}; } main { parbegin routine[2](int w, int id) { a[id] = a[1 - id]; } parend; print(a[0], a[1]); }",
            0,
            b"2 1\n",
            b"",
        ),
        (
            b"shared { tally int t; } main { parbegin routine[8](int w, int id) { t += id; } parend; print(t); }",
            0,
            b"28\n",
            b"",
        ),
        (
            b"shared { int a[2]; } main { parbegin routine[0](int w, int id) { assert(false); } routine[2](int w, int id) { a[id] = w + id; } parend; print(a[0], a[1]); }",
            0,
            b"2 3\n",
            b"",
        ),
        (
            b"shared { int a[4]; } main { parbegin routine[2](int w, int id) { assert(false); } routine[2](int w, int id) { a[id] = w + id; } parend; }",
            5,
            b"",
            b"fault: step 1, routine 0: assertion failed\n",
        ),
        (
            b"shared { int a[4]; } main { parbegin routine[2](int w, int id) { a[id] = w; } routine[2](int w, int id) { assert(false); } parend; }",
            5,
            b"",
            b"fault: step 1, routine 2: assertion failed\n",
        ),
        (
            b"shared { int s; } main { parbegin routine[2](int w, int id) { s = id; } parend; }",
            5,
            b"",
            b"fault: step 1, routine 1: word 0 also written by routine 0\n",
        ),
        (
            b"shared { int s; } main { parbegin routine[2](int w, int id) { s = 0; } parend; }",
            5,
            b"",
            b"fault: step 1, routine 1: word 0 also written by routine 0\n",
        ),
        (
            b"shared { int a[2]; int s; } main { parbegin routine[2](int w, int id) { a[id] = id + 1; } parend; print(a[0], a[1]); parbegin routine[2](int w, int id) { s = id; } parend; print(\"never\"); }",
            5,
            b"1 2\n",
            b"fault: step 2, routine 1: word 2 also written by routine 0\n",
        ),
        (
            b"shared { int a[1]; } main { parbegin routine[3](int w, int id) { if (id == 1) { assert(false); } a[0] = id; } parend; }",
            5,
            b"",
            b"fault: step 1, routine 1: assertion failed\n",
        ),
        (
            b"shared { int s; } main { parbegin routine[4](int w, int id) { if (id > 0) { s = id; } } parend; }",
            5,
            b"",
            b"fault: step 1, routine 2: word 0 also written by routine 1\n",
        ),
        (
            b"shared { int a[6]; } main { parbegin routine[2](int w, int id) { a[5] = 1; assert(id == 1); } parend; }",
            5,
            b"",
            b"fault: step 1, routine 0: assertion failed\n",
        ),
        (
            b"shared { int a[4]; int z; } main { parbegin routine[4](int w, int id) { if (id == 3) { a[0] = 1 / z; } if (id == 1) { a[4 + id] = 1; } a[id] = id; } parend; }",
            5,
            b"",
            b"fault: step 1, routine 1: index out of range\n",
        ),
        (
            b"shared { int x; } main { for (int i = 0; i < 2; i += 1) { parbegin routine[1](int w, int id) { x = x + 1; } parend; } print(x); }",
            0,
            b"2\n",
            b"",
        ),
        (
            b"shared { tally int t; } main { parbegin routine[2](int w, int id) { if (id == 0) { t += 9223372036854775807; } else { t += 1; } } parend; }",
            5,
            b"",
            b"fault: step 1: total at word 0\n",
        ),
        (
            b"shared { tally int t; } main { t = 5; parbegin routine[3](int w, int id) { t += id - 1; } parend; t += 1; print(t); }",
            0,
            b"6\n",
            b"",
        ),
        (
            b"shared { } main { parbegin routine[-1](int w, int id) { } parend; }",
            5,
            b"",
            b"fault: after step 0: bad width\n",
        ),
        (
            b"shared { } main { parbegin routine[65536](int w, int id) { } routine[1](int w, int id) { } parend; }",
            5,
            b"",
            b"fault: after step 0: bad width\n",
        ),
        (
            b"shared { } main { parbegin routine[65537](int w, int id) { } parend; }",
            5,
            b"",
            b"fault: after step 0: bad width\n",
        ),
        (
            b"shared { } main { print(1); parbegin routine[1 / 0](int w, int id) { } parend; }",
            5,
            b"1\n",
            b"fault: after step 0: division by zero\n",
        ),
        (
            b"shared { int a[64]; int b[64]; int c[64]; } int cell(int r, int q) { int v = 0; for (int k = 0; k < 8; k += 1) { v += a[r * 8 + k] * b[k * 8 + q]; } return v; } main { parbegin routine[64](int w, int id) { a[id] = id / 8 + id % 8; if (id / 8 == id % 8) { b[id] = 2; } } parend; parbegin routine[64](int w, int id) { c[id] = cell(id / 8, id % 8); } parend; int s = 0; for (int i = 0; i < 64; i += 1) { s += c[i]; } print(\"sum\", s, \"last\", c[63]); }",
            0,
            b"sum 896 last 28\n",
            b"",
        ),
    ];
    all_come(&rt, rt.alloc(), rows)
}

#[test]
fn values(rt: HostRuntime) -> Result<(), Fail> {
    let rows: &[Row] = &[
        (b"shared { } main { print(); }", 0, b"\n", b""),
        (
            b"shared { } main { print(\"a\", true, -0, 1 == 1 && 2 < 1); print(\"\"); }",
            0,
            b"a true 0 false\n\n",
            b"",
        ),
        (
            b"shared { } main { print(7 - 2 - 1, 2 + 3 * 4, (2 + 3) * 4, 1 < 2 == true, !false || false); }",
            0,
            b"4 14 20 true true\n",
            b"",
        ),
        (
            b"shared { } main { int m = -9223372036854775807 - 1; print(-7 / 2, -7 % 2); print(m / -1); }",
            5,
            b"-3 -1\n",
            b"fault: after step 0: overflow\n",
        ),
        (
            b"shared { } main { int m = -9223372036854775807 - 1; print(7 / -2, 7 % -2); print(m % -1); }",
            5,
            b"-3 1\n",
            b"fault: after step 0: overflow\n",
        ),
        (
            b"shared { } main { print(9223372036854775806 + 1, -9223372036854775807 - 1); print(9223372036854775807 + 1); }",
            5,
            b"9223372036854775807 -9223372036854775808\n",
            b"fault: after step 0: overflow\n",
        ),
        (
            b"shared { } main { print(--------------------------------------------------------------7); }",
            0,
            b"7\n",
            b"",
        ),
        (
            b"shared { } main { print(-9223372036854775807 - 2); }",
            5,
            b"",
            b"fault: after step 0: overflow\n",
        ),
        (
            b"shared { } main { print(4611686018427387904 * -2); print(4611686018427387904 * 2); }",
            5,
            b"-9223372036854775808\n",
            b"fault: after step 0: overflow\n",
        ),
        (
            b"shared { } main { int m = -9223372036854775807 - 1; print(- m); }",
            5,
            b"",
            b"fault: after step 0: overflow\n",
        ),
        (
            b"shared { int x = 3; } main { print(1); }",
            4,
            b"",
            b"refused: at 15: unexpected\n",
        ),
        (
            b"shared { int z; } main { print(z != 0 && 1 / z > 0, z == 0 || 1 / z > 0); print(1, 2, 1 % z); }",
            5,
            b"false true\n",
            b"fault: after step 0: division by zero\n",
        ),
        (
            b"shared { int a[2]; } main { a[1] = 4; print(a[1]); a[2] = 1 / 0; }",
            5,
            b"4\n",
            b"fault: after step 0: division by zero\n",
        ),
        (
            b"shared { int a[2]; } main { a[2] = 1; }",
            5,
            b"",
            b"fault: after step 0: index out of range\n",
        ),
        (
            b"shared { int a[2]; } main { print(a[-1]); }",
            5,
            b"",
            b"fault: after step 0: index out of range\n",
        ),
        (
            b"shared { int a[2]; } main { parbegin routine[1](int w, int id) { a[id + 2] = 1; } parend; }",
            5,
            b"",
            b"fault: step 1, routine 0: index out of range\n",
        ),
        (
            b"shared { int a[2]; int x; } main { parbegin routine[1](int w, int id) { x = a[id - 1]; } parend; }",
            5,
            b"",
            b"fault: step 1, routine 0: index out of range\n",
        ),
        (
            b"shared { } main { assert(1 < 2); assert(2 < 1); }",
            5,
            b"",
            b"fault: after step 0: assertion failed\n",
        ),
        (
            b"shared { } main { while (true) { } }",
            5,
            b"",
            b"fault: after step 0: fuel spent\n",
        ),
        (
            b"shared { } int f(int n) { return f(n + 1); } main { print(f(0)); }",
            5,
            b"",
            b"fault: after step 0: too deep\n",
        ),
        (
            b"shared { int x; } int f() { while (true) { x += 1; if (x == 5) { return x; } } return 0; } main { int n = 2; n += f(); print(n, x); }",
            0,
            b"7 5\n",
            b"",
        ),
        (
            b"shared { } main { int s = 0; for (int i = 0; i < 10; i += 1) { if (i % 2 == 0) { continue; } if (i == 7) { break; } s += i; } print(s); }",
            0,
            b"9\n",
            b"",
        ),
    ];
    all_come(&rt, rt.alloc(), rows)
}

#[test]
fn sums_that_overflow(rt: HostRuntime) -> Result<(), Fail> {
    let rows: &[Row] = &[
        (
            b"shared { } main { print(-9223372036854775807 + -2); }",
            5,
            b"",
            b"fault: after step 0: overflow\n",
        ),
        (
            b"shared { } main { print(9223372036854775807 - -1); }",
            5,
            b"",
            b"fault: after step 0: overflow\n",
        ),
        (
            b"shared { } main { print(4611686018427387904 * -3); }",
            5,
            b"",
            b"fault: after step 0: overflow\n",
        ),
        (
            b"shared { } main { int x = 9223372036854775807; x += 1; }",
            5,
            b"",
            b"fault: after step 0: overflow\n",
        ),
        (
            b"shared { int x; } main { x = -9223372036854775807; x += -1; print(x); x += -1; }",
            5,
            b"-9223372036854775808\n",
            b"fault: after step 0: overflow\n",
        ),
        (
            b"shared { int a[1] = {9223372036854775807}; } main { parbegin routine[1](int w, int id) { a[0] += 1; } parend; }",
            5,
            b"",
            b"fault: step 1, routine 0: overflow\n",
        ),
        (
            b"shared { tally int t; } main { parbegin routine[1](int w, int id) { t += 9223372036854775807; t += 1; t += -1; } parend; }",
            5,
            b"",
            b"fault: step 1, routine 0: overflow\n",
        ),
    ];
    all_come(&rt, rt.alloc(), rows)
}

/// `examples/matrix_product.csl`.
const MATRIX_PRODUCT: &[u8] =
    b"// The product of two 8 by 8 matrices: one routine for each item of the result.
shared { int a[64]; int b[64]; int c[64]; }

int item(int row, int column) {
  int sum = 0;
  for (int k = 0; k < 8; k += 1) { sum += a[row * 8 + k] * b[k * 8 + column]; }
  return sum;
}

main {
  // a holds i + j, and b is twice the unit matrix
  parbegin
  routine[64](int width, int id) {
    a[id] = id / 8 + id % 8;
    if (id / 8 == id % 8) { b[id] = 2; }
  }
  parend;
  parbegin
  routine[64](int width, int id) { c[id] = item(id / 8, id % 8); }
  parend;
  for (int row = 0; row < 8; row += 1) {
    int at = row * 8;
    print(c[at], c[at + 1], c[at + 2], c[at + 3], c[at + 4], c[at + 5], c[at + 6], c[at + 7]);
  }
}
";

/// `examples/conflict.csl`.
const CONFLICT: &[u8] =
    b"// Two routines of one step write the same word: the run ends in a fault that names the higher one.
shared { int winner; }
main {
  print(\"who wins?\");
  parbegin
  routine[2](int width, int id) { winner = id; }
  parend;
  print(\"never printed\");
}
";

#[test]
fn examples(rt: HostRuntime) -> Result<(), Fail> {
    let rows: &[Row] = &[
        (
            MATRIX_PRODUCT,
            0,
            b"0 2 4 6 8 10 12 14\n2 4 6 8 10 12 14 16\n4 6 8 10 12 14 16 18\n6 8 10 12 14 16 18 20\n8 10 12 14 16 18 20 22\n10 12 14 16 18 20 22 24\n12 14 16 18 20 22 24 26\n14 16 18 20 22 24 26 28\n",
            b"",
        ),
        (
            CONFLICT,
            5,
            b"who wins?\n",
            b"fault: step 1, routine 1: word 0 also written by routine 0\n",
        ),
    ];
    all_come(&rt, rt.alloc(), rows)
}
