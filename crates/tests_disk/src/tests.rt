//! What no contract says: that calls succeed, what is asked of a file, and that a file of the system answers
//! as a device does.
mod asked;
mod enough_memory;
mod extents;
mod fake;
mod files;
mod order;
mod ports;

ghost use Rattle.std.specs.Prelude.{IfOk};
ghost use Rattle.disk.specs.Blocks.{AreBlocks};
ghost use Rattle.disk.specs.Memory.{memory_device};

use disk::{Block, BlockNo, CrashDisk, Failed, MemDisk, Side, a_device_tells_of_blocks};
use std::alloc::Global;
use std::test::Fail;

const HOME: BlockNo = BlockNo(600);

const LOG: BlockNo = BlockNo(2);

const OTHER: BlockNo = BlockNo(601);

const BLOCKS: u32 = 602;

// A block that begins with this byte, and else has zeros.
fn block(alloc: Global, byte: u8) -> Result<Block, Fail> {
    let mut block = Block::zeros(alloc)?;
    block.put(0, &[byte]);
    Ok(block)
}

// A call of a device: of one block, or of a side.
#[derive(Clone, Copy)]
enum Call {
    Read(BlockNo),
    Write(BlockNo),
    Barrier(Side),
}

// Makes a call, of a block on the device. Answers the first byte that was read or written.
fn make<D: CrashDisk>(disk: &mut D, call: Call, content: &mut Block) -> Result<u8, Failed> {
    match call {
        Call::Read(block) if block.0 < disk.blocks() => disk.read(block, content)?,
        Call::Write(block) if block.0 < disk.blocks() => disk.write(block, content)?,
        Call::Barrier(side) => disk.barrier(side)?,
        _ => return Err(Failed),
    }
    Ok(content.as_slice()[0])
}

// Writes this byte to two home blocks and one of the log side.
fn write_three(disk: &mut MemDisk, content: &mut Block) -> bool {
    make(disk, Call::Write(LOG), content).is_ok()
        && make(disk, Call::Write(HOME), content).is_ok()
        && make(disk, Call::Write(OTHER), content).is_ok()
}

// A device on which they were each written twice, the second time with no barrier. By the law of devices,
// here at this type, it tells of blocks.
fn written(alloc: Global) -> Result<MemDisk, Fail>
    ensures { IfOk result (λ disk. AreBlocks (memory_device disk)) }
{
    let mut one = block(alloc, 1)?;
    let mut two = block(alloc, 2)?;
    let mut disk = MemDisk::new(alloc, BLOCKS)?;
    let made = write_three(&mut disk, &mut one)
        && disk.barrier(Side::Home).is_ok()
        && write_three(&mut disk, &mut two);
    if !made {
        Err("a call failed")?;
    }
    a_device_tells_of_blocks(&disk);
    Ok(disk)
}

// The first bytes of the newest contents of the three blocks.
fn first_bytes(disk: &MemDisk) -> [u8; 3] {
    let mut bytes = [0; 3];
    for (byte, tested_block) in bytes.iter_mut().zip([LOG, HOME, OTHER]) {
        if tested_block.0 < disk.blocks() {
            *byte = disk.newest(tested_block).as_slice()[0];
        }
    }
    bytes
}

#[test]
fn crash_chooses_by_digits(rt: HostRuntime) -> Result<(), Fail> {
    let cases: [(&[u32], [u8; 3]); 5] = [
        (&[], [0, 1, 1]),
        (&[1, 0, 0], [1, 1, 1]),
        (&[2, 1, 0], [2, 2, 1]),
        (&[0, 1, 1], [0, 2, 2]),
        (&[9, 9, 9], [2, 2, 2]),
    ];
    for (digits, wanted) in cases {
        let disk = written(rt.alloc())?.crash(digits);
        assert!(rt; first_bytes(&disk) == wanted && disk.calls() == 0);
    }
    Ok(())
}

// A device whose first, third and fifth calls fail, after the first of them: a write.
fn named(alloc: Global) -> Result<MemDisk, Fail> {
    let mut one = block(alloc, 1)?;
    let mut disk = MemDisk::new(alloc, BLOCKS)?;
    disk.fail_at(&[1, 3, 5])?;
    if make(&mut disk, Call::Write(HOME), &mut one).is_ok() {
        Err("the first call was made")?;
    }
    if HOME.0 >= disk.blocks() || disk.count(HOME) < 2 {
        Err("no room for the write")?;
    }
    Ok(disk)
}

#[test]
fn named_calls_fail(rt: HostRuntime) -> Result<(), Fail> {
    // The read after the write that failed shows that it was made.
    let calls = [
        (Call::Read(HOME), Ok(1)),
        (Call::Barrier(Side::Home), Err(Failed)),
        (Call::Barrier(Side::Home), Ok(1)),
        (Call::Read(HOME), Err(Failed)),
        (Call::Read(HOME), Ok(1)),
    ];
    let mut disk = named(rt.alloc())?;
    let mut out = Block::zeros(rt.alloc())?;
    for (call, wanted) in calls {
        assert!(rt; make(&mut disk, call, &mut out) == wanted);
    }
    assert!(rt; disk.calls() == 6);
    Ok(())
}
