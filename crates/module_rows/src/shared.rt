//! What threads share: a memory and a module.

use bytecode::decode;
use cal_base::Image;
use code_verify::{Verified, verify};
use std::test::Fail;
use std::thread::{Threads, join};

/// What a thread sees of a memory and a module: how many words there are of each.
fn seen(image: &Image, code: &Verified) -> (u32, u32) {
    (image.len(), code.module().words)
}

/// What two threads see of the same memory and the same module.
fn seen_by_two<R: Threads + Sync>(
    rt: &R,
    image: &Image,
    code: &Verified,
) -> ((u32, u32), (u32, u32)) {
    join(rt, || seen(image, code), || seen(image, code))
}

#[test]
fn threads_share_a_memory_and_a_module(rt: HostRuntime) -> Result<(), Fail> {
    let alloc = rt.alloc();
    let image = Image::make(alloc, 70, &[], &[(1, 7)])?;
    let bytes: [u8; 13] = [0x43, 0x53, 0x4c, 0x31, 0, 0, 0, 0, 0, 0, 0, 1, 0x1c];
    let module = decode(alloc, &bytes).ok().ok_or("a module")?;
    let code = verify(alloc, module).ok().ok_or("a verified module")?;
    assert_eq!(rt; seen_by_two(&rt, &image, &code), ((70, 0), (70, 0)));
    Ok(())
}
