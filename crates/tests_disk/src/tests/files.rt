//! Files of the system: what they keep. Their lengths, locks and modes are asked of the built program.

use crate::tests::{Call, block, make};
use base::BLOCK_BYTES;
use disk::{Block, BlockNo, CrashDisk, Failed, Side};
use disk_file::FileDisk;
use std::fs::OpenOptions;
use std::test::Fail;

// Makes a file of three blocks, of which the last begins with 1.
fn make_file(rt: &HostRuntime, path: &str) -> Result<bool, Fail> {
    let mut one = block(rt.alloc(), 1)?;
    let mut disk = FileDisk::create(rt, path, 3)?;
    Ok(
        disk.blocks() == 3
            && make(&mut disk, Call::Write(BlockNo(2)), &mut one) == Ok(1)
            && disk.barrier(Side::Log) == Ok(()),
    )
}

#[test]
fn a_file_preserves_what_was_written(rt: HostRuntime) -> Result<(), Fail> {
    let path = "kept.tmp";
    assert!(rt; make_file(&rt, path)?);
    let mut out = Block::zeros(rt.alloc())?;
    let mut longer = FileDisk::create(&rt, path, 5)?;
    let kept = make(&mut longer, Call::Read(BlockNo(2)), &mut out);
    let added = make(&mut longer, Call::Read(BlockNo(4)), &mut out);
    assert!(rt; longer.blocks() == 5 && (kept, added) == (Ok(1), Ok(0)));
    std::fs::remove_file(&rt, path)?;
    Ok(())
}

// A file that was cut short behind the device's back: its blocks past the end can't be read.
#[test]
fn a_file_is_cut_short(rt: HostRuntime) -> Result<(), Fail> {
    let path = "cut.tmp";
    let mut out = Block::zeros(rt.alloc())?;
    let mut longer = FileDisk::create(&rt, path, 5)?;
    let before = make(&mut longer, Call::Read(BlockNo(4)), &mut out);
    let file = OpenOptions::new().write(true).open(&rt, path)?;
    file.set_len(BLOCK_BYTES as u64 * 2)?;
    let after = make(&mut longer, Call::Read(BlockNo(4)), &mut out);
    assert!(rt; (before, after) == (Ok(0), Err(Failed)));
    std::fs::remove_file(&rt, path)?;
    Ok(())
}
