use bytecode::decode;
use code_verify::{VerifyError, verify};
use std::alloc::Global;
use std::test::*;

/// Whether the bytes are a module's that keeps all rules.
fn is_accepted(alloc: Global, bytes: &[u8]) -> Result<bool, Fail> {
    let m = decode(alloc, bytes).ok().ok_or("a module")?;
    match verify(alloc, m) {
        Ok(verified) => Ok(verified.module().functions.len() <= 256),
        Err(VerifyError::Refused) => Ok(false),
        Err(VerifyError::NoMemory) => Err(Fail::from("memory")),
    }
}

#[test]
fn accepts_and_refuses_modules(rt: HostRuntime) -> Result<(), Fail> {
    let alloc = rt.alloc();
    let cases: &[(&[u8], bool)] = &[
        (
            &[0x43, 0x53, 0x4c, 0x31, 0, 0, 0, 0, 0, 0, 0, 1, 0x1c],
            true,
        ),
        // a line with -3
        (
            &[
                0x43, 0x53, 0x4c, 0x31, 0, 0, 0, 0, 0, 0, 0, 3, 0, 5, 0x1f, 1, 1, 0x1c,
            ],
            true,
        ),
        // a loop to itself
        (
            &[0x43, 0x53, 0x4c, 0x31, 0, 0, 0, 0, 0, 0, 0, 1, 0x1a, 0],
            true,
        ),
        // an empty code, a Pop at the end, a Jump back, and a value left at a Return
        (&[0x43, 0x53, 0x4c, 0x31, 0, 0, 0, 0, 0, 0, 0, 0], false),
        (
            &[0x43, 0x53, 0x4c, 0x31, 0, 0, 0, 0, 0, 0, 0, 1, 0x1d],
            false,
        ),
        (
            &[
                0x43, 0x53, 0x4c, 0x31, 0, 0, 0, 0, 0, 0, 0, 2, 0x18, 0, 0x1c,
            ],
            false,
        ),
        (
            &[0x43, 0x53, 0x4c, 0x31, 0, 0, 0, 0, 0, 0, 0, 2, 2, 0x1c],
            false,
        ),
        // two ways to one place, with the same kinds and with others
        (
            &[
                0x43, 0x53, 0x4c, 0x31, 0, 0, 0, 0, 0, 0, 0, 7, 2, 0x19, 4, 0, 0, 0x18, 5, 0, 2,
                0x1d, 0x1c,
            ],
            true,
        ),
        (
            &[
                0x43, 0x53, 0x4c, 0x31, 0, 0, 0, 0, 0, 0, 0, 7, 2, 0x19, 4, 0, 0, 0x18, 5, 2, 0x1d,
                0x1c,
            ],
            false,
        ),
        // a step whose block adds to a tally word, and one whose block sets it
        (
            &[
                0x43, 0x53, 0x4c, 0x31, 1, 1, 0, 0, 0, 0, 1, 2, 1, 1, 3, 0, 2, 0x14, 0, 0x1c, 0, 3,
                0, 4, 0x20, 0, 1, 0x1c,
            ],
            true,
        ),
        (
            &[
                0x43, 0x53, 0x4c, 0x31, 1, 1, 0, 0, 0, 0, 1, 2, 1, 1, 3, 0, 2, 0x13, 0, 0x1c, 0, 3,
                0, 4, 0x20, 0, 1, 0x1c,
            ],
            false,
        ),
    ];
    for (bytes, accepted) in cases {
        assert_eq!(rt; is_accepted(alloc, *bytes)?, *accepted);
    }
    Ok(())
}
