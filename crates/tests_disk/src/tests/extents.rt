//! What a port asks of its file for writes of blocks that follow each other: one call for each extent, before the barrier.
//! Where such a call fails, the write that begins the next extent fails or the barrier, and each call behind it, and nothing
//! more is asked.

use crate::tests::block;
use crate::tests::fake::{Step, Steps};
use crate::tests::ports::{Call, make, opening};
use disk::{Block, BlockNo, Failed, Port, Side, Splits};
use disk_file::ThreadedDisk;
use std::alloc::Global;
use std::test::Fail;

// Blocks 1 to 512 are of the log's side.
const BLOCKS: u32 = 600;

const NEVER: usize = usize::MAX;

const WHOLE: usize = usize::MAX;

const DONE: Result<(), Failed> = Ok(());

const FAILED: Result<(), Failed> = Err(Failed);

const SETTLES: Call = Call::LogBarrier(Side::Log);

const NOTHING: &[Step] = &[Step::AskLength];

// Calls of the ports, each with its answer; and what they ask of the file, behind what is asked to see that both openings
// are of the same. From so many calls of the file on each fails, and each takes at most so many bytes.
struct Row {
    says: &'static str,
    failing: usize,
    piece: usize,
    calls: &'static [(Call, Result<(), Failed>)],
    asked: &'static [Step],
}

const ROWS: [Row; 13] = [
    Row {
        says: "neighbours are written at once",
        failing: NEVER,
        piece: WHOLE,
        calls: &[
            (Call::LogWrite(1), DONE),
            (Call::LogWrite(2), DONE),
            (Call::LogWrite(3), DONE),
            (SETTLES, DONE),
        ],
        asked: &[Step::AskLength, Step::WriteAt(4096, 12288), Step::SyncData],
    },
    Row {
        says: "a gap begins another extent",
        failing: NEVER,
        piece: WHOLE,
        calls: &[
            (Call::LogWrite(1), DONE),
            (Call::LogWrite(3), DONE),
            (SETTLES, DONE),
        ],
        asked: &[
            Step::AskLength,
            Step::WriteAt(4096, 4096),
            Step::WriteAt(12288, 4096),
            Step::SyncData,
        ],
    },
    Row {
        says: "the block before begins another extent",
        failing: NEVER,
        piece: WHOLE,
        calls: &[
            (Call::LogWrite(2), DONE),
            (Call::LogWrite(1), DONE),
            (SETTLES, DONE),
        ],
        asked: &[
            Step::AskLength,
            Step::WriteAt(8192, 4096),
            Step::WriteAt(4096, 4096),
            Step::SyncData,
        ],
    },
    Row {
        says: "a block that is written twice is written in its order",
        failing: NEVER,
        piece: WHOLE,
        calls: &[
            (Call::LogWrite(2), DONE),
            (Call::LogWrite(2), DONE),
            (SETTLES, DONE),
        ],
        asked: &[
            Step::AskLength,
            Step::WriteAt(8192, 4096),
            Step::WriteAt(8192, 4096),
            Step::SyncData,
        ],
    },
    Row {
        says: "what isn't of the side ends no extent",
        failing: NEVER,
        piece: WHOLE,
        calls: &[
            (Call::LogWrite(1), DONE),
            (Call::LogWrite(0), FAILED),
            (Call::LogBarrier(Side::Home), FAILED),
            (Call::LogWrite(2), DONE),
            (SETTLES, DONE),
        ],
        asked: &[Step::AskLength, Step::WriteAt(4096, 8192), Step::SyncData],
    },
    Row {
        says: "a barrier writes what came since the last one",
        failing: NEVER,
        piece: WHOLE,
        calls: &[
            (Call::LogWrite(1), DONE),
            (SETTLES, DONE),
            (Call::LogWrite(2), DONE),
            (SETTLES, DONE),
            (SETTLES, DONE),
        ],
        asked: &[
            Step::AskLength,
            Step::WriteAt(4096, 4096),
            Step::SyncData,
            Step::WriteAt(8192, 4096),
            Step::SyncData,
            Step::SyncData,
        ],
    },
    Row {
        says: "home blocks are gathered by the home side alone",
        failing: NEVER,
        piece: WHOLE,
        calls: &[
            (Call::HomeWrite(514), DONE),
            (Call::LogWrite(1), DONE),
            (Call::HomeWrite(515), DONE),
            (SETTLES, DONE),
        ],
        asked: &[Step::AskLength, Step::WriteAt(4096, 4096), Step::SyncData],
    },
    Row {
        says: "a short write goes on with what is left",
        failing: NEVER,
        piece: 3000,
        calls: &[
            (Call::LogWrite(1), DONE),
            (Call::LogWrite(2), DONE),
            (SETTLES, DONE),
        ],
        asked: &[
            Step::AskLength,
            Step::WriteAt(4096, 8192),
            Step::WriteAt(7096, 5192),
            Step::WriteAt(10096, 2192),
            Step::SyncData,
        ],
    },
    Row {
        says: "an extent fails at the barrier, and so does the next barrier",
        failing: 1,
        piece: WHOLE,
        calls: &[
            (Call::LogWrite(1), DONE),
            (Call::LogWrite(2), DONE),
            (SETTLES, FAILED),
            (SETTLES, FAILED),
        ],
        asked: &[Step::AskLength, Step::WriteAt(4096, 8192)],
    },
    Row {
        says: "an extent fails behind a part of it",
        failing: 2,
        piece: 3000,
        calls: &[
            (Call::LogWrite(1), DONE),
            (Call::LogWrite(2), DONE),
            (SETTLES, FAILED),
            (Call::LogWrite(3), FAILED),
            (SETTLES, FAILED),
        ],
        asked: &[
            Step::AskLength,
            Step::WriteAt(4096, 8192),
            Step::WriteAt(7096, 5192),
        ],
    },
    Row {
        says: "an extent fails at the write that begins the next, and so does what comes behind it",
        failing: 1,
        piece: WHOLE,
        calls: &[
            (Call::LogWrite(1), DONE),
            (Call::LogWrite(2), DONE),
            (Call::LogWrite(5), FAILED),
            (Call::LogWrite(3), FAILED),
            (SETTLES, FAILED),
            (SETTLES, FAILED),
        ],
        asked: &[Step::AskLength, Step::WriteAt(4096, 8192)],
    },
    Row {
        says: "a file that takes no byte fails",
        failing: NEVER,
        piece: 0,
        calls: &[
            (Call::LogWrite(1), DONE),
            (SETTLES, FAILED),
            (SETTLES, FAILED),
        ],
        asked: &[Step::AskLength, Step::WriteAt(4096, 4096)],
    },
    Row {
        says: "a sync fails behind an extent that was written",
        failing: 2,
        piece: WHOLE,
        calls: &[(Call::LogWrite(1), DONE), (SETTLES, FAILED)],
        asked: &[Step::AskLength, Step::WriteAt(4096, 4096), Step::SyncData],
    },
];

// Whether the calls are answered so, and ask just that of the log's opening.
fn is_met(alloc: Global, row: &Row) -> Result<bool, Fail> {
    let of_log = Steps::new(alloc, row.failing, row.piece);
    let of_home = Steps::new(alloc, NEVER, WHOLE);
    let disk = ThreadedDisk::over(opening(&of_log), opening(&of_home), BLOCKS)?;
    let (mut log, mut home, mut sources) = disk.split(alloc, 1)?;
    let mut content = block(alloc, 7)?;
    let mut is_met = true;
    for (call, answer) in row.calls {
        let made = make(
            *call,
            &mut log,
            &mut home,
            sources.as_mut_slice(),
            &mut content,
        );
        is_met = is_met && made == *answer;
    }
    drop((log, home, sources));
    let asked = of_log.made.into_inner();
    let asked_home = of_home.made.into_inner();
    Ok(is_met && asked.as_slice() == row.asked && asked_home.as_slice() == NOTHING)
}

#[test]
fn writes_of_neighbours_are_one_call(rt: HostRuntime) -> Result<(), Fail> {
    for row in &ROWS {
        assert!(rt; is_met(rt.alloc(), row)?, "{}", row.says);
    }
    Ok(())
}

// Writes so many neighbours from a block on, each of other bytes, and settles them.
fn write_all<P: Port>(
    port: &mut P,
    side: Side,
    first: u32,
    count: u8,
    content: &mut Block,
) -> Result<(), Failed> {
    for number in 0..count {
        content.put(0, &[number]);
        port.write(BlockNo(first.saturating_add(u32::from(number))), content)?;
    }
    port.barrier(side)
}

// Whether these are the bytes of so many such blocks.
fn are_written(written: &[u8], count: u8) -> bool {
    let blocks = written.chunks(4096);
    written.len() == count as usize * 4096
        && blocks
            .zip(0..count)
            .all(|(block, number)| block.first() == Some(&number))
}

// An extent has 128 blocks at most, of either side, and its bytes are those of its writes in their order.
#[test]
fn an_extent_is_of_128_blocks_at_most(rt: HostRuntime) -> Result<(), Fail> {
    let of_log = Steps::new(rt.alloc(), NEVER, WHOLE);
    let of_home = Steps::new(rt.alloc(), NEVER, WHOLE);
    let disk = ThreadedDisk::over(opening(&of_log), opening(&of_home), 1000)?;
    let (mut log, mut home, sources) = disk.split(rt.alloc(), 0)?;
    let mut content = Block::zeros(rt.alloc())?;
    assert!(rt; write_all(&mut log, Side::Log, 2, 130, &mut content) == DONE);
    assert!(rt; write_all(&mut home, Side::Home, 700, 128, &mut content) == DONE);
    drop((log, home, sources));
    assert!(rt; are_written(of_log.written.into_inner().as_slice(), 130));
    assert!(rt; are_written(of_home.written.into_inner().as_slice(), 128));
    let asked = of_log.made.into_inner();
    let wanted = [
        Step::AskLength,
        Step::WriteAt(8192, 524_288),
        Step::WriteAt(532_480, 8192),
        Step::SyncData,
    ];
    assert!(rt; asked.as_slice() == wanted.as_slice(), "{asked:?}");
    let asked = of_home.made.into_inner();
    let wanted = [
        Step::AskLength,
        Step::WriteAt(2_867_200, 524_288),
        Step::SyncData,
    ];
    assert!(rt; asked.as_slice() == wanted.as_slice(), "{asked:?}");
    Ok(())
}
