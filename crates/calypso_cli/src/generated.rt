//! `gen`: a generated program.

ghost use Rattle.std.specs.Prelude.{◌≤◌, ℕ, []};
ghost use Rattle.std.specs.declared.option.Option.{Option};
ghost use Rattle.cal_base.specs.Contents.{Contents};
ghost use Rattle.command_words.specs.Commands.{gen};
ghost use Rattle.calypso_cli.specs.Promise.{objects_of, Works};
ghost use Rattle.calypso_cli.specs.Seen.{ending_seen};

use crate::Ending;
use cal_base::{Sink, write_all};
use program_gen::generate;
use std::alloc::Global;

/// Writes the generated program of this number and size. It is not handed the files, which are as before.
pub(crate) fn write_generated<'a, S: Sink>(
    alloc: Global,
    number: u32,
    size: u32,
    out: &mut S,
) -> Ending<'a>
    ensures works { (told : Option Contents) (file_faults : ℕ) → Works (gen number size)
        (objects_of told (S.written out.old) file_faults (S.faults out.old))
        (objects_of told (S.written out.new) file_faults (S.faults out.new))
        (ending_seen result) [] }
    ensures later { S.faults out.old ≤ S.faults out.new }
{
    let Ok(text) = generate(alloc, number, size) else {
        return Ending::NoMemory;
    };
    match write_all(out, &text) {
        Ok(()) => Ending::Done,
        Err(_) => Ending::OutputFailed,
    }
}
