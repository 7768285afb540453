//! That there is room where there is memory: calls that may answer want of it, past the smallest size.

use crate::tests::{Call, OTHER, block, make};
use disk::{Block, CrashDisk, Failed, MemDisk, Side};
use std::test::Fail;

// Each write of a block without a barrier is kept.
#[test]
fn many_writes_find_memory(rt: HostRuntime) -> Result<(), Fail> {
    let mut disk = MemDisk::new(rt.alloc(), 2048)?;
    for byte in 1..=200u8 {
        let mut content = block(rt.alloc(), byte)?;
        assert!(rt; make(&mut disk, Call::Write(OTHER), &mut content) == Ok(byte));
    }
    assert!(rt; disk.blocks() == 2048 && disk.count(OTHER) == 201);
    assert!(rt; disk.newest(OTHER).as_slice()[0] == 200);
    Ok(())
}

// Calls that are to fail may be named at several times, and those of each time fail.
#[test]
fn calls_are_named_at_several_times(rt: HostRuntime) -> Result<(), Fail> {
    let mut disk = MemDisk::new(rt.alloc(), 1)?;
    let mut out = Block::zeros(rt.alloc())?;
    for call in 1..=100 {
        disk.fail_at(&[2 * call, 1000 + call])?;
    }
    for call in 1..=200u64 {
        let wanted = if call % 2 == 0 { Err(Failed) } else { Ok(0) };
        assert!(rt; make(&mut disk, Call::Barrier(Side::Home), &mut out) == wanted);
    }
    Ok(())
}
