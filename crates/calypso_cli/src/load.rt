//! Programs, modules, scripts and lists of events in files.

ghost use Rattle.std.specs.Prelude.{◌≡◌, ◌⊎◌, ◌≤◌, ℕ, List, length, Some, IfOk, IfErr};
ghost use Rattle.cal_base.specs.Contents.{Told, SameFiles, Loads};
ghost use Rattle.csl_grammar.specs.Texts.{text_limit};
ghost use Rattle.event_world.specs.Law.{Each, IsOfWorker};
ghost use Rattle.csl_reader.specs.Readings as reading;
ghost use Rattle.calypso_cli.specs.Commands.{IsRefusedText, IsModule, IsNoModule, module_limit, IsScript, IsNoScript, script_limit};
ghost use Rattle.calypso_cli.specs.Commands.{IsNoEvents, events_limit};
ghost use Rattle.command_words.specs.Seen.{flags_seen};
ghost use Rattle.calypso_cli.specs.Endings.{no_memory};
ghost use Rattle.calypso_cli.specs.Steps.{Holds, HoldsRows, ReadsAs, IsRefusal, Spells, IsModuleRefusal, IsScriptRefusal, Lists};
ghost use Rattle.calypso_cli.specs.Steps.{IsEventsRefusal, NoEnding, TurnsNoneAway, StopsLoad, StopsScript};
ghost use Rattle.calypso_cli.specs.Seen.{ending_seen};

use crate::Ending;
use bytecode::{DecodeError, decode};
use cal_base::{Files, LoadError};
use code_verify::{Verified, VerifyError, verify};
use command_words::Flags;
use csl_reader::{ReadError, read_program};
use fault_script::{Event, EventsError, Script, ScriptError, read_events, read_script};
use std::alloc::Global;
use type_check::checked::Checked;

/// The longest program, in bytes.
const PROGRAM_LIMIT: usize = 1_048_576;

/// The longest module, in bytes.
const MODULE_LIMIT: usize = 16_777_216;

/// The longest script, in bytes.
const SCRIPT_LIMIT: usize = 1_048_576;

/// The longest list of events, in bytes.
const EVENTS_LIMIT: usize = 1_048_576;

/// The bytes of a file, which are to be no more than the limit, or how the call ends.
fn load_bytes<'a, F: Files>(
    alloc: Global,
    files: &mut F,
    file: &'a str,
    limit: usize,
) -> Result<Vec<u8>, Ending<'a>>
    requires may_load { F.may_load file.now }
    requires small { limit ≤ 16777216 }
    ensures loaded { IfOk result (λ bytes. Loads (F.holds files.old) file.now limit bytes.items) }
    ensures few { IfOk result (λ bytes. length bytes.items ≤ limit) }
    ensures stops { IfErr result (λ ending. StopsLoad (F.holds files.old) file.now limit NoEnding TurnsNoneAway (F.faults files.old)
        (F.faults files.new) (ending_seen ending)) }
    ensures files { Told (F.holds files.old) (F.holds files.new) SameFiles }
    ensures later { F.faults files.old ≤ F.faults files.new }
{
    let bytes = match files.load(alloc, file, limit) {
        Ok(bytes) => bytes,
        Err(LoadError::Failed) => return Err(Ending::CannotLoad(file)),
        Err(LoadError::NoMemory) => return Err(Ending::NoMemory),
    };
    if bytes.len() > limit {
        return Err(Ending::TooLong(file));
    }
    Ok(bytes)
}

/// The accepted program in a file, or how the call ends.
pub(crate) fn load_program<'a, F: Files>(
    alloc: Global,
    files: &mut F,
    file: &'a str,
) -> Result<Checked, Ending<'a>>
    requires { F.may_load file.now }
    ensures loaded { IfOk result (λ program. Holds (F.holds files.old) file.now (ReadsAs (reading.accepted program))) }
    ensures stops { IfErr result (λ ending. StopsLoad (F.holds files.old) file.now text_limit IsRefusal IsRefusedText (F.faults files.old)
        (F.faults files.new) (ending_seen ending)) }
    ensures files { Told (F.holds files.old) (F.holds files.new) SameFiles }
    ensures later { F.faults files.old ≤ F.faults files.new }
{
    let text = match load_bytes(alloc, files, file, PROGRAM_LIMIT) {
        Ok(text) => text,
        Err(ending) => return Err(ending),
    };
    match read_program(alloc, &text) {
        Ok(program) => Ok(program),
        Err(ReadError::Refused { at, why }) => Err(Ending::Refused { at, why }),
        Err(ReadError::NoMemory) => Err(Ending::NoMemory),
    }
}

/// The verified module that the bytes spell, or how the call ends.
fn read_module<'a>(alloc: Global, bytes: &[u8]) -> Result<Verified, Ending<'a>>
    ensures read { IfOk result (λ code. IsModule bytes.now code) }
    ensures turned { IfErr result (λ ending. (ending_seen ending ≡ no_memory) ⊎ IsNoModule bytes.now (ending_seen ending)) }
{
    let module = match decode(alloc, bytes) {
        Ok(module) => module,
        Err(DecodeError::Refused) => return Err(Ending::ModuleRefused),
        Err(DecodeError::NoMemory) => return Err(Ending::NoMemory),
    };
    match verify(alloc, module) {
        Ok(code) => Ok(code),
        Err(VerifyError::Refused) => Err(Ending::ModuleRefused),
        Err(VerifyError::NoMemory) => Err(Ending::NoMemory),
    }
}

/// The verified module in a file, or how the call ends.
pub(crate) fn load_module<'a, F: Files>(
    alloc: Global,
    files: &mut F,
    file: &'a str,
) -> Result<Verified, Ending<'a>>
    requires { F.may_load file.now }
    ensures loaded { IfOk result (λ code. Holds (F.holds files.old) file.now (Spells code)) }
    ensures stops { IfErr result (λ ending. StopsLoad (F.holds files.old) file.now module_limit IsModuleRefusal IsNoModule
        (F.faults files.old) (F.faults files.new) (ending_seen ending)) }
    ensures files { Told (F.holds files.old) (F.holds files.new) SameFiles }
    ensures later { F.faults files.old ≤ F.faults files.new }
{
    match load_bytes(alloc, files, file, MODULE_LIMIT) {
        Ok(bytes) => read_module(alloc, &bytes),
        Err(ending) => Err(ending),
    }
}

/// The script in a file, or how the call ends.
fn load_rows<'a, F: Files>(
    alloc: Global,
    files: &mut F,
    file: &'a str,
) -> Result<Script, Ending<'a>>
    requires { F.may_load file.now }
    ensures loaded { IfOk result (λ script. Holds (F.holds files.old) file.now
        (λ bytes. (length bytes ≤ script_limit) × IsScript bytes script)) }
    ensures stops { IfErr result (λ ending. StopsLoad (F.holds files.old) file.now script_limit IsScriptRefusal IsNoScript
        (F.faults files.old) (F.faults files.new) (ending_seen ending)) }
    ensures files { Told (F.holds files.old) (F.holds files.new) SameFiles }
    ensures later { F.faults files.old ≤ F.faults files.new }
{
    let bytes = match load_bytes(alloc, files, file, SCRIPT_LIMIT) {
        Ok(bytes) => bytes,
        Err(ending) => return Err(ending),
    };
    match read_script(alloc, &bytes) {
        Ok(script) => Ok(script),
        Err(ScriptError::Refused) => Err(Ending::ScriptRefused),
        Err(ScriptError::NoMemory) => Err(Ending::NoMemory),
    }
}

/// The script that the options name, one that says nothing where they name none, or how the call ends.
pub(crate) fn load_script<'a, F: Files>(
    alloc: Global,
    files: &mut F,
    flags: &'a Flags,
) -> Result<Script, Ending<'a>>
    requires { (name : List ℕ) → (flags_seen flags.now).script ≡ Some name → F.may_load name }
    ensures rows { IfOk result (λ script. HoldsRows (F.holds files.old) (flags_seen flags.now).script script) }
    ensures stops { IfErr result (λ ending. StopsScript (F.holds files.old) (flags_seen flags.now).script (F.faults files.old)
        (F.faults files.new) (ending_seen ending)) }
    ensures files { Told (F.holds files.old) (F.holds files.new) SameFiles }
    ensures later { F.faults files.old ≤ F.faults files.new }
{
    match &flags.script {
        Some(file) => load_rows(alloc, files, file.as_str()),
        None => Ok(Script::none(alloc)),
    }
}

/// The events that a file lists, or how the call ends.
pub(crate) fn load_events<'a, F: Files>(
    alloc: Global,
    files: &mut F,
    file: &'a str,
) -> Result<Vec<Event>, Ending<'a>>
    requires { F.may_load file.now }
    ensures listed { IfOk result (λ list. Holds (F.holds files.old) file.now (Lists list.items)) }
    ensures workers { IfOk result (λ list. Each IsOfWorker list.items) }
    ensures stops { IfErr result (λ ending. StopsLoad (F.holds files.old) file.now events_limit IsEventsRefusal IsNoEvents
        (F.faults files.old) (F.faults files.new) (ending_seen ending)) }
    ensures files { Told (F.holds files.old) (F.holds files.new) SameFiles }
    ensures later { F.faults files.old ≤ F.faults files.new }
{
    let bytes = match load_bytes(alloc, files, file, EVENTS_LIMIT) {
        Ok(bytes) => bytes,
        Err(ending) => return Err(ending),
    };
    match read_events(alloc, &bytes) {
        Ok(list) => Ok(list),
        Err(EventsError::Refused { line }) => Err(Ending::EventsRefused(line)),
        Err(EventsError::NoMemory) => Err(Ending::NoMemory),
    }
}
