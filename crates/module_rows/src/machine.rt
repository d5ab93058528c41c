ghost use Rattle.std.specs.Prelude.{◌≡◌, ◌<◌, ◌≤◌, ◌+◌, IfOk, IsTrue, length};
ghost use Rattle.cal_base.specs.Memory.{kinds_of};
ghost use Rattle.machine_meaning.specs.Meaning.{module_memory};
ghost use Rattle.routine_vm.specs.Held.{MayGoOn};

use bytecode::decode;
use cal_base::{Image, KeptUpdate, UpdateWords};
use code_verify::{Verified, verify};
use plain_words::PlainWords;
use routine_vm::{Machine, MainEvent, first_image};
use std::alloc::Global;
use std::test::*;

/// The verified module whose bytes these are, in hexadecimal digits.
fn module_of(alloc: Global, spelling: &str) -> Result<Verified, Fail> {
    let bytes = hex::decode(alloc, spelling).ok().ok_or("bytes")?;
    let m = decode(alloc, bytes.as_slice()).ok().ok_or("a module")?;
    let code = verify(alloc, m).ok().ok_or("a verified module")?;
    Ok(code)
}

/// Runs the routines of a block over plain words, and tells how each ended and what it wrote and added.
fn tell_block(
    alloc: Global,
    machine: &mut Machine,
    code: &Verified,
    image: &Image,
    block: u32,
    width: u32,
    fuel: u32,
    text: &mut String,
) -> Result<(), Fail>
    requires block { block < length code.now.blocks }
    requires kinds { kinds_of image.now.memory ≡ kinds_of (module_memory code.now) }
    ensures { machine.new ≡ machine.old }
{
    for id in 0..width {
        let mut words = PlainWords::make(alloc, image)?;
        let end = machine.run_routine(code, block, width, id, fuel, &mut words);
        text.push_str(format!(in alloc; "; routine {end:?}")?.as_str())?;
        let kept = KeptUpdate::copy_of(alloc, &words)?;
        for a in 0..8 {
            if let Some((at, v)) = kept.next_from(a) {
                if at == a {
                    text.push_str(format!(in alloc; " {a}={v}")?.as_str())?;
                }
            }
        }
    }
    Ok(())
}

/// Tells the items of a line.
fn tell_items(alloc: Global, machine: &Machine, items: u32, text: &mut String) -> Result<(), Fail>
    requires { items ≡ length machine.now.items }
{
    for i in 0..items {
        let item = machine.item(i);
        text.push_str(format!(in alloc; " {item:?}")?.as_str())?;
    }
    Ok(())
}

/// Tells the widths of a step.
fn tell_widths(alloc: Global, machine: &Machine, blocks: u32, text: &mut String) -> Result<(), Fail>
    requires { blocks ≡ length machine.now.widths }
{
    for i in 0..blocks {
        let width = machine.width(i);
        text.push_str(format!(in alloc; " {width}")?.as_str())?;
    }
    Ok(())
}

/// Runs the routines of a step.
fn tell_blocks(
    alloc: Global,
    machine: &mut Machine,
    code: &Verified,
    image: &Image,
    first: u32,
    blocks: u32,
    fuel: u32,
    text: &mut String,
) -> Result<(), Fail>
    requires count { blocks ≡ length machine.old.widths }
    requires there { first + blocks ≤ length code.now.blocks }
    requires kinds { kinds_of image.now.memory ≡ kinds_of (module_memory code.now) }
    ensures { machine.new ≡ machine.old }
{
    for i in 0..blocks {
        let block = first.checked_add(i).ok_or("a block")?;
        let width = machine.width(i);
        tell_block(alloc, machine, code, image, block, width, fuel, text)?;
    }
    Ok(())
}

/// Goes on to main's next event and tells of it; what routines wrote is dropped. Whether main may go on.
fn tell_event(
    alloc: Global,
    machine: &mut Machine,
    code: &Verified,
    image: &mut Image,
    fuel: u32,
    text: &mut String,
) -> Result<bool, Fail>
    requires may { MayGoOn code.now machine.old }
    requires kinds { kinds_of image.old.memory ≡ kinds_of (module_memory code.now) }
    ensures may { IfOk result (λ more. IsTrue more → MayGoOn code.now machine.new) }
    ensures kinds { kinds_of image.new.memory ≡ kinds_of image.old.memory }
{
    match machine.run_main(code, image) {
        MainEvent::Print { items } => {
            text.push_str("print")?;
            tell_items(alloc, machine, items, text)?;
            text.push_str("; ")?;
            Ok(true)
        }
        MainEvent::Par {
            first_block,
            blocks,
            total,
        } => {
            text.push_str(format!(in alloc; "step {first_block} of")?.as_str())?;
            tell_widths(alloc, machine, blocks, text)?;
            text.push_str(format!(in alloc; " ({total})")?.as_str())?;
            tell_blocks(alloc, machine, code, image, first_block, blocks, fuel, text)?;
            text.push_str("; ")?;
            Ok(true)
        }
        MainEvent::Halt => {
            text.push_str("halt")?;
            Ok(false)
        }
        MainEvent::Fault(cause) => {
            text.push_str(format!(in alloc; "fault {cause:?}")?.as_str())?;
            Ok(false)
        }
    }
}

/// Runs main from event to event, and tells of them.
fn tell(alloc: Global, code: &Verified, fuel: u32) -> Result<String, Fail> {
    let mut image = first_image(alloc, code)?;
    let mut machine = Machine::make(alloc, code, fuel)?;
    let mut text = String::new(alloc);
    for _ in 0..64 {
        let more = tell_event(alloc, &mut machine, code, &mut image, fuel, &mut text)?;
        if !more {
            return Ok(text);
        }
    }
    Ok(text)
}

#[test]
fn runs_modules(rt: HostRuntime) -> Result<(), Fail> {
    let alloc = rt.alloc();
    let cases: &[(&str, u32, &str)] = &[
        // a Return alone
        ("43534c3100000000000000011c", 9, "halt"),
        // a line with -3
        (
            "43534c31000000000000000300051f01011c",
            9,
            "print Int(-3); halt",
        ),
        // a loop to itself
        ("43534c3100000000000000011a00", 3, "fault FuelSpent"),
        // every instruction, for exactly its fuel
        (
            "43534c3106010101000a010373756d030201020102091001190610000004051c1000081c0102010105100000000f091c00000005120000020313001c0002010252000e1100021101100010011b001000011b0003000604000305000606000d0006071f020101000200020a02010b1f020202000200040c000400040d000200040e000400040f1f04020202021b0200081400001213010002140100040050160204000400041702041200120100041502041f04000001010100091b011f010200101d021e00061100100000000e194d100000020411001a44184e10001f01011f001c",
            7,
            "print Int(-2) Int(-1); print Truth(true) Truth(true); print Truth(true) Truth(true) Truth(false) Truth(true); print Text { index: 0 } Int(10) Int(10) Int(42); print Truth(true); print Int(0); print; halt",
        ),
        // a unit less
        (
            "43534c3106010101000a010373756d030201020102091001190610000004051c1000081c0102010105100000000f091c00000005120000020313001c0002010252000e1100021101100010011b001000011b0003000604000305000606000d0006071f020101000200020a02010b1f020202000200040c000400040d000200040e000400040f1f04020202021b0200081400001213010002140100040050160204000400041702041200120100041502041f04000001010100091b011f010200101d021e00061100100000000e194d100000020411001a44184e10001f01011f001c",
            6,
            "print Int(-2) Int(-1); print Truth(true) Truth(true); print Truth(true) Truth(true) Truth(false) Truth(true); print Text { index: 0 } Int(10) Int(10) Int(42); print Truth(true); fault FuelSpent",
        ),
        // 64 calls above main
        (
            "43534c310000000001010101010d100000000a190600001c10000002041b000002031c000004007e1b001f01011c",
            100,
            "print Int(63); halt",
        ),
        // one more
        (
            "43534c310000000001010101010d100000000a190600001c10000002041b000002031c0000040080011b001f01011c",
            100,
            "fault TooDeep",
        ),
        // overflow by +
        (
            "43534c31000000000000000500feffffffffffffffff010002031f01011c",
            9,
            "fault Overflow",
        ),
        // overflow by -
        (
            "43534c31000000000000000500ffffffffffffffffff010002041f01011c",
            9,
            "fault Overflow",
        ),
        // overflow by negation
        (
            "43534c31000000000000000400ffffffffffffffffff01081f01011c",
            9,
            "fault Overflow",
        ),
        // overflow by division
        (
            "43534c31000000000000000500ffffffffffffffffff010001061f01011c",
            9,
            "fault Overflow",
        ),
        // overflow by remainder
        (
            "43534c31000000000000000500ffffffffffffffffff010001071f01011c",
            9,
            "fault Overflow",
        ),
        // division by zero
        (
            "43534c31000000000000000500020000061f01011c",
            9,
            "fault DivisionByZero",
        ),
        // an index of -1
        (
            "43534c31020000000000000400011500021f01011c",
            9,
            "fault OutOfRange",
        ),
        // an index of the length
        (
            "43534c31020000000000000400041500021f01011c",
            9,
            "fault OutOfRange",
        ),
        // a false assertion
        ("43534c310000000000000003011e1c", 9, "fault Assertion"),
        // a negative width
        (
            "43534c31000000000002020101011a00020101011a000004000400012000021c",
            9,
            "fault BadWidth",
        ),
        // a routine too many
        (
            "43534c31000000000002020101011a00020101011a0000040080800800022000021c",
            9,
            "fault BadWidth",
        ),
        // a step without fuel
        (
            "43534c31000000000001020101011a00000300002000011c",
            0,
            "fault FuelSpent",
        ),
        // two blocks
        (
            "43534c3103010201028c010000020201010810011000100103160002100114021c0201010d120000000a1e000a130012001402100100000b1e1c00060004000220000212021f01011c",
            9,
            "step 0 of 2 1 (3); routine Ended 0=2 2=0; routine Ended 1=3 2=1; routine Fault(Assertion) 0=5 2=5; print Int(70); halt",
        ),
        // a routine that spends fuel of its own and none of main's
        (
            "43534c31000000000001020101011a00000300022000011a02",
            2,
            "step 0 of 1 (1); routine Fault(FuelSpent); fault FuelSpent",
        ),
    ];
    for (spelling, fuel, told) in cases {
        let code = module_of(alloc, *spelling)?;
        let text = tell(alloc, &code, *fuel)?;
        assert_eq!(rt; text.as_str(), *told);
    }
    Ok(())
}
