//! The text of a generated program.

ghost use Rattle.std.specs.Prelude.{◌≡◌, ◌<◌, ◌≤◌, ◌++◌, codes, length, IfOk, OnOk};
ghost use Rattle.std.specs.Fmt.{decimal};
ghost use Rattle.program_gen.specs.Generated as program;
ghost use Rattle.program_gen.specs.Generated.{first_value, next_value, values, step_line, steps, generated};

use cal_terms::NoMemory;
use itoa::Buffer;
use std::alloc::Global;

/// The lines behind the steps.
const TAIL: &[u8] = b"int s = 0;
for (int i = 0; i < 256; i += 1) { s += a[i]; }
print(\"sum\", s, \"total\", t, \"first\", a[0]);
}
";

/// Appends a number in decimal digits.
fn push_number(text: &mut Vec<u8>, n: u64) -> Result<(), NoMemory>
    ensures { OnOk result (text.new.items ≡ text.old.items ++ decimal n) }
{
    let mut buffer = Buffer::new();
    text.extend_from_slice(buffer.format(n).as_bytes())?;
    Ok(())
}

/// What word i of the array holds at first.
fn first(number: u32, i: u32) -> u64
    requires { i < 256 }
    ensures { result ≡ first_value number i }
{
    u64::from(number) * (u64::from(i) + 1) % 1009
}

/// Appends the first value of word i behind another one.
fn push_next(text: &mut Vec<u8>, number: u32, i: u32) -> Result<(), NoMemory>
    requires { i < 256 }
    ensures { OnOk result (text.new.items ≡ text.old.items ++ next_value number i) }
{
    text.extend_from_slice(b", ")?;
    push_number(text, first(number, i))
}

/// Appends the first values of all words.
fn push_values(text: &mut Vec<u8>, number: u32) -> Result<(), NoMemory>
    ensures { OnOk result (text.new.items ≡ text.old.items ++ values number) }
{
    push_number(text, first(number, 0))?;
    for i in 1..256 {
        push_next(text, number, i)?;
    }
    Ok(())
}

/// How far from its own word a routine of step j reads.
fn distance(number: u32, j: u32) -> u64
    ensures { result ≡ program.distance number j }
{
    (u64::from(number) + 31 * u64::from(j)) % 256
}

/// What a routine of step j adds to the word that it read.
fn addend(number: u32, j: u32) -> u64
    ensures { result ≡ program.addend number j }
{
    (u64::from(number) + u64::from(j)) % 10
}

/// Appends the line of step j.
fn push_step(text: &mut Vec<u8>, number: u32, j: u32) -> Result<(), NoMemory>
    ensures { OnOk result (text.new.items ≡ text.old.items ++ step_line number j) }
{
    text.extend_from_slice(b"parbegin routine[256](int w, int id) { a[id] = a[(id + ")?;
    push_number(text, distance(number, j))?;
    text.extend_from_slice(b") % 256] + ")?;
    push_number(text, addend(number, j))?;
    text.extend_from_slice(b"; t += a[id]; } parend;\n")?;
    Ok(())
}

/// Appends the lines of all steps.
fn push_steps(text: &mut Vec<u8>, number: u32, size: u32) -> Result<(), NoMemory>
    ensures { OnOk result (text.new.items ≡ text.old.items ++ steps number size) }
{
    for j in 0..size {
        push_step(text, number, j + 1)?;
    }
    Ok(())
}

/// The program of this number with `size` steps. Its text is told in `docs/FORMATS.md`. With 4,096 steps at most it is no longer than a
/// program may be.
pub fn generate(alloc: Global, number: u32, size: u32) -> Result<Vec<u8>, NoMemory>
    ensures text { IfOk result (λ text. text.items ≡ generated number size) }
    ensures fits { size ≤ 4096 → IfOk result (λ text. length text.items ≤ 1048576) }
{
    let mut text = Vec::new(alloc);
    text.extend_from_slice(b"shared {\nint a[256] = {")?;
    push_values(&mut text, number)?;
    text.extend_from_slice(b"};\ntally int t;\n}\nmain {\n")?;
    push_steps(&mut text, number, size)?;
    text.extend_from_slice(TAIL)?;
    Ok(text)
}
