use bytecode::{
    Code, DecodeError, Gives, Instr, Module, PrintItem, Text, Ty, decode, encode, has_spelling,
};
use sqlite_items::Items;
use std::alloc::Global;
use std::test::*;

/// The bytes before main of a module without words, texts, functions and blocks.
const Z: [u8; 11] = [0x43, 0x53, 0x4c, 0x31, 0, 0, 0, 0, 0, 0, 0];

/// Those bytes and then these.
fn after_z(alloc: Global, rest: &[u8]) -> Result<Vec<u8>, Fail> {
    let mut bytes = Vec::from_slice(alloc, &Z)?;
    bytes.extend_from_slice(rest)?;
    Ok(bytes)
}

fn is_refused(alloc: Global, bytes: &[u8]) -> bool {
    matches!(decode(alloc, bytes), Err(DecodeError::Refused))
}

#[test]
fn reads_and_writes_modules(rt: HostRuntime) -> Result<(), Fail> {
    let alloc = rt.alloc();
    let mains: &[&[u8]] = &[
        &[1, 0x1c],
        &[3, 0, 5, 0x1f, 1, 1, 0x1c],
        &[1, 0x1d],
        &[2, 0x18, 0, 0x1c],
        &[2, 2, 0x1c],
        &[1, 0x1a, 0],
    ];
    for main in mains {
        let bytes = after_z(alloc, *main)?;
        let m = decode(alloc, bytes.as_slice()).ok().ok_or("a module")?;
        if !has_spelling(&m) {
            return Err(Fail::from("a spelling"));
        }
        let again = encode(alloc, &m)?;
        assert_eq!(rt; again.as_slice(), bytes.as_slice());
    }
    Ok(())
}

#[test]
fn refuses_other_bytes(rt: HostRuntime) -> Result<(), Fail> {
    let alloc = rt.alloc();
    let refused: &[&[u8]] = &[
        // a byte more, a padded number, and each beginning
        &[0x43, 0x53, 0x4c, 0x31, 0, 0, 0, 0, 0, 0, 0, 1, 0x1c, 0],
        &[0x43, 0x53, 0x4c, 0x31, 0x80, 0, 0, 0, 0, 0, 0, 0, 1, 0x1c],
        // more texts than there are bytes, and a count of 2 ^ 32
        &[
            0x43, 0x53, 0x4c, 0x31, 0, 0, 0, 0xff, 0xff, 0xff, 0xff, 0x0f,
        ],
        &[0x43, 0x53, 0x4c, 0x31, 0x80, 0x80, 0x80, 0x80, 0x10],
        // addresses that do not ascend, a first value of 0, and an unknown kind
        &[0x43, 0x53, 0x4c, 0x31, 2, 2, 1, 1, 0, 0, 0, 0, 0, 1, 0x1c],
        &[0x43, 0x53, 0x4c, 0x31, 2, 0, 1, 0, 0, 0, 0, 0, 0, 1, 0x1c],
        &[0x43, 0x53, 0x4c, 0x31, 0, 0, 0, 0, 0, 0, 1, 3, 1, 0x1c],
    ];
    for bytes in refused {
        assert!(rt; is_refused(alloc, *bytes));
    }
    let whole = after_z(alloc, &[1, 0x1c])?;
    for cut in 0..whole.len() {
        assert!(rt; is_refused(alloc, &whole.as_slice()[..cut]));
    }
    Ok(())
}

/// One of each instruction, in the order of their bytes.
fn each_instruction(alloc: Global) -> Result<Items<Instr>, Fail> {
    let items = vec![in alloc;
        PrintItem::Text { index: 0 },
        PrintItem::Int,
        PrintItem::Truth,
    ]?;
    let mut all = vec![in alloc;
        Instr::Int(-65),
        Instr::False,
        Instr::True,
        Instr::Add,
        Instr::Sub,
        Instr::Mul,
        Instr::Div,
        Instr::Rem,
        Instr::Neg,
        Instr::Not,
        Instr::Eq,
        Instr::Ne,
        Instr::Lt,
        Instr::Le,
        Instr::Gt,
        Instr::Ge,
        Instr::Load(1),
    ]?;
    let mut more = vec![in alloc;
        Instr::Store(2),
        Instr::Word(3),
        Instr::Put(4),
        Instr::AddWord(5),
        Instr::Item(6, 200),
        Instr::SetItem(7, 3),
        Instr::AddItem(8, 4),
        Instr::Jump(9),
        Instr::Branch(10),
        Instr::Loop(11),
        Instr::Call(12),
        Instr::Return,
        Instr::Pop,
        Instr::Assert,
        Instr::Print(Items::from_vec(items)),
        Instr::Par(13, 4294967295),
    ]?;
    all.append(&mut more)?;
    Ok(Items::from_vec(all))
}

/// A module that uses every field.
fn each_field(alloc: Global) -> Result<Module, Fail> {
    let function = Code {
        params: 1,
        gives: Gives::Bool,
        locals: Items::from_vec(vec![in alloc; Ty::Bool]?),
        instrs: Items::from_vec(vec![in alloc; Instr::Load(0), Instr::Return]?),
    };
    let block = Code {
        params: 2,
        gives: Gives::Nothing,
        locals: Items::from_vec(vec![in alloc; Ty::Int, Ty::Int, Ty::Bool]?),
        instrs: Items::from_vec(vec![in alloc; Instr::Return]?),
    };
    let main = Code {
        params: 0,
        gives: Gives::Nothing,
        locals: Items::new(alloc),
        instrs: each_instruction(alloc)?,
    };
    Ok(Module {
        words: 300,
        tallies: Items::from_vec(vec![in alloc; 1, 299]?),
        initial: Items::from_vec(vec![in alloc; (0, 63), (2, i64::MIN)]?),
        texts: Items::from_vec(vec![in alloc; Text::from_slice(alloc, b"ab")?]?),
        functions: Items::from_vec(vec![in alloc; function]?),
        blocks: Items::from_vec(vec![in alloc; block]?),
        main,
    })
}

#[test]
fn writes_every_field(rt: HostRuntime) -> Result<(), Fail> {
    let alloc = rt.alloc();
    let expected: &[u8] = &[
        0x43, 0x53, 0x4c, 0x31, 0xac, 0x02, 2, 1, 0xab, 0x02, // words and tally words
        2, 0, 0x7e, 2, 0xff, 0xff, 0xff, 0xff, 0xff, 0xff, 0xff, 0xff, 0xff, 1, // first values
        1, 2, 0x61, 0x62, // texts
        1, 1, 2, 1, 2, 2, 0x10, 0, 0x1c, // functions
        1, 3, 1, 1, 2, 1, 0x1c, // blocks
        0, 33, 0x00, 0x81, 0x01, 0x01, 0x02, 0x03, 0x04, 0x05, 0x06, 0x07, 0x08, 0x09, 0x0a, 0x0b,
        0x0c, 0x0d, 0x0e, 0x0f, 0x10, 1, 0x11, 2, 0x12, 3, 0x13, 4, 0x14, 5, 0x15, 6, 0xc8, 0x01,
        0x16, 7, 3, 0x17, 8, 4, 0x18, 9, 0x19, 10, 0x1a, 11, 0x1b, 12, 0x1c, 0x1d, 0x1e, 0x1f, 3,
        0, 0, 1, 2, 0x20, 13, 0xff, 0xff, 0xff, 0xff, 0x0f,
    ];
    let m = each_field(alloc)?;
    if !has_spelling(&m) {
        return Err(Fail::from("a spelling"));
    }
    let written = encode(alloc, &m)?;
    assert_eq!(rt; written.as_slice(), expected);
    let read = decode(alloc, expected).ok().ok_or("a module")?;
    if !has_spelling(&read) {
        return Err(Fail::from("a spelling"));
    }
    let again = encode(alloc, &read)?;
    assert_eq!(rt; again.as_slice(), expected);
    Ok(())
}
