//! What each call of a device asks of its file, call by call, and each of these failing.

use crate::tests::fake::{Fake, Step, Steps};
use crate::tests::{Call, make};
use base::BLOCK_BYTES;
use disk::{Block, BlockNo, CrashDisk, Failed, Side};
use disk_file::{FileDisk, FirstContents};
use std::alloc::Global;
use std::test::Fail;

const BLOCK: BlockNo = BlockNo(3);

const BLOCKS: u32 = 5;

// A device over a file with these calls.
fn over(steps: &Steps) -> FileDisk<Fake<'_>> {
    let file = Fake {
        steps,
        is_folder: false,
    };
    FileDisk::over(file, BLOCKS)
}

// A block whose first and last bytes differ.
fn content(alloc: Global) -> Result<Block, Fail> {
    let mut block = Block::zeros(alloc)?;
    block.put(0, &[7, 8]);
    block.put(BLOCK_BYTES - 1, &[9]);
    Ok(block)
}

// These calls were made, and no others.
fn were_asked(steps: Steps, wanted: &[Step]) -> bool {
    steps.made.into_inner().as_slice() == wanted
}

// The bytes of this block were written, and no others.
fn was_written(steps: &Steps, block: &Block) -> bool {
    match steps.written.try_borrow() {
        Ok(written) => written.as_slice() == block.as_slice(),
        Err(_) => false,
    }
}

// A call of a device over a file that fails from one of its calls on and takes at most so many bytes a call; what
// it answers, and what the file is asked.
struct Row {
    says: &'static str,
    call: Call,
    failing: usize,
    piece: usize,
    answer: Result<u8, Failed>,
    asked: &'static [Step],
}

const NEVER: usize = usize::MAX;

const WHOLE: usize = usize::MAX;

const ROWS: [Row; 9] = [
    Row {
        says: "a read asks for its block",
        call: Call::Read(BLOCK),
        failing: NEVER,
        piece: WHOLE,
        answer: Ok(3),
        asked: &[Step::ReadAt(12288, 4096)],
    },
    Row {
        says: "a write hands its block over",
        call: Call::Write(BLOCK),
        failing: NEVER,
        piece: WHOLE,
        answer: Ok(7),
        asked: &[Step::WriteAt(12288, 4096)],
    },
    Row {
        says: "a barrier of the log syncs once",
        call: Call::Barrier(Side::Log),
        failing: NEVER,
        piece: WHOLE,
        answer: Ok(7),
        asked: &[Step::SyncData],
    },
    Row {
        says: "a barrier of the home side syncs once",
        call: Call::Barrier(Side::Home),
        failing: NEVER,
        piece: WHOLE,
        answer: Ok(7),
        asked: &[Step::SyncData],
    },
    Row {
        says: "a short read goes on with what is left",
        call: Call::Read(BLOCK),
        failing: NEVER,
        piece: 1500,
        answer: Ok(3),
        asked: &[
            Step::ReadAt(12288, 4096),
            Step::ReadAt(13788, 2596),
            Step::ReadAt(15288, 1096),
        ],
    },
    Row {
        says: "a short write goes on with what is left",
        call: Call::Write(BLOCK),
        failing: NEVER,
        piece: 1500,
        answer: Ok(7),
        asked: &[
            Step::WriteAt(12288, 4096),
            Step::WriteAt(13788, 2596),
            Step::WriteAt(15288, 1096),
        ],
    },
    // an error of the file is a failure, and the file isn't asked again
    Row {
        says: "a read fails",
        call: Call::Read(BLOCK),
        failing: 0,
        piece: WHOLE,
        answer: Err(Failed),
        asked: &[Step::ReadAt(12288, 4096)],
    },
    Row {
        says: "a write fails",
        call: Call::Write(BLOCK),
        failing: 0,
        piece: WHOLE,
        answer: Err(Failed),
        asked: &[Step::WriteAt(12288, 4096)],
    },
    // a sync isn't tried anew, as the system may have dropped what it couldn't write
    Row {
        says: "a sync fails",
        call: Call::Barrier(Side::Home),
        failing: 0,
        piece: WHOLE,
        answer: Err(Failed),
        asked: &[Step::SyncData],
    },
];

// Whether what was read is the file's, and what was written is the block.
fn is_whole(steps: &Steps, call: Call, block: &Block) -> bool {
    match call {
        Call::Read(_) => block.as_slice().iter().all(|byte| *byte == 3),
        Call::Write(_) => was_written(steps, block),
        Call::Barrier(_) => true,
    }
}

fn is_met(alloc: Global, row: &Row) -> Result<bool, Fail> {
    let steps = Steps::new(alloc, row.failing, row.piece);
    let mut block = content(alloc)?;
    let answer = make(&mut over(&steps), row.call, &mut block);
    let is_whole = answer.is_err() || is_whole(&steps, row.call, &block);
    Ok(answer == row.answer && is_whole && were_asked(steps, row.asked))
}

#[test]
fn what_a_file_is_asked(rt: HostRuntime) -> Result<(), Fail> {
    for row in &ROWS {
        assert!(rt; is_met(rt.alloc(), row)?, "{}", row.says);
    }
    Ok(())
}

// A device that is told what its file held asks the same of it.
#[test]
fn what_was_first_changes_no_call(rt: HostRuntime) -> Result<(), Fail> {
    let steps = Steps::new(rt.alloc(), usize::MAX, usize::MAX);
    let mut out = Block::zeros(rt.alloc())?;
    let file = Fake {
        steps: &steps,
        is_folder: false,
    };
    let mut disk = FileDisk::over(file, BLOCKS).beginning_with(FirstContents::whatever());
    assert!(rt; make(&mut disk, Call::Read(BLOCK), &mut out) == Ok(3) && disk.blocks() == BLOCKS);
    assert!(rt; were_asked(steps, &[Step::ReadAt(12288, 4096)]));
    Ok(())
}
