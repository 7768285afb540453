//! What the parts of a split device ask of their file: nothing but for what is on their side of the device, and a write
//! no sooner than it must be. The home side asks its own opening of the file.

use crate::tests::block;
use crate::tests::fake::{Fake, Step, Steps};
use disk::{Block, BlockNo, Failed, Port, Side, Source, Splits};
use disk_file::{FileDisk, FilePort, FileSource, ThreadedDisk};
use std::alloc::Global;
use std::fs::OpenOptions;
use std::io;
use std::test::Fail;

// Block 0 is of the home side, and the others are of the log's.
const BLOCKS: u32 = 5;

// A call of a part.
#[derive(Clone, Copy)]
pub enum Call {
    LogWrite(u32),
    LogBarrier(Side),
    HomeWrite(u32),
    HomeBarrier(Side),
    Read(u32),
}

// A call, its answer, and what it asks of the two openings, behind what is asked to see that their file is the same.
struct Row {
    says: &'static str,
    call: Call,
    answer: Result<(), Failed>,
    of_log: &'static [Step],
    of_home: &'static [Step],
}

const NOTHING: &[Step] = &[Step::AskLength];

const ROWS: [Row; 12] = [
    Row {
        says: "a block of the log waits for the barrier",
        call: Call::LogWrite(3),
        answer: Ok(()),
        of_log: NOTHING,
        of_home: NOTHING,
    },
    Row {
        says: "the log's port writes no home block",
        call: Call::LogWrite(0),
        answer: Err(Failed),
        of_log: NOTHING,
        of_home: NOTHING,
    },
    Row {
        says: "the log's port writes nothing past the end",
        call: Call::LogWrite(5),
        answer: Err(Failed),
        of_log: NOTHING,
        of_home: NOTHING,
    },
    Row {
        says: "the log's barrier",
        call: Call::LogBarrier(Side::Log),
        answer: Ok(()),
        of_log: &[Step::AskLength, Step::SyncData],
        of_home: NOTHING,
    },
    Row {
        says: "the log's port settles no home block",
        call: Call::LogBarrier(Side::Home),
        answer: Err(Failed),
        of_log: NOTHING,
        of_home: NOTHING,
    },
    Row {
        says: "a home block waits for the barrier",
        call: Call::HomeWrite(0),
        answer: Ok(()),
        of_log: NOTHING,
        of_home: NOTHING,
    },
    Row {
        says: "the home port writes no block of the log",
        call: Call::HomeWrite(3),
        answer: Err(Failed),
        of_log: NOTHING,
        of_home: NOTHING,
    },
    Row {
        says: "the home side's barrier",
        call: Call::HomeBarrier(Side::Home),
        answer: Ok(()),
        of_log: NOTHING,
        of_home: &[Step::AskLength, Step::SyncData],
    },
    Row {
        says: "the home port settles no block of the log",
        call: Call::HomeBarrier(Side::Log),
        answer: Err(Failed),
        of_log: NOTHING,
        of_home: NOTHING,
    },
    Row {
        says: "a home block is read",
        call: Call::Read(0),
        answer: Ok(()),
        of_log: &[Step::AskLength, Step::ReadAt(0, 4096)],
        of_home: NOTHING,
    },
    Row {
        says: "a source reads no block of the log",
        call: Call::Read(3),
        answer: Err(Failed),
        of_log: NOTHING,
        of_home: NOTHING,
    },
    Row {
        says: "a source reads nothing past the end",
        call: Call::Read(9),
        answer: Err(Failed),
        of_log: NOTHING,
        of_home: NOTHING,
    },
];

pub fn opening(steps: &Steps) -> Fake<'_> {
    Fake {
        steps,
        is_folder: false,
    }
}

// Makes the call of its part.
pub fn make<'a>(
    call: Call,
    log: &mut FilePort<Fake<'a>>,
    home: &mut FilePort<Fake<'a>>,
    sources: &mut [FileSource<Fake<'a>>],
    content: &mut Block,
) -> Result<(), Failed> {
    match call {
        Call::LogWrite(number) => log.write(BlockNo(number), content),
        Call::LogBarrier(side) => log.barrier(side),
        Call::HomeWrite(number) => home.write(BlockNo(number), content),
        Call::HomeBarrier(side) => home.barrier(side),
        Call::Read(number) => match sources.get_mut(0) {
            Some(source) => source.read(BlockNo(number), content),
            None => Err(Failed),
        },
    }
}

// Whether the call is answered so, and asks just that of each opening.
fn is_met(alloc: Global, row: &Row) -> Result<bool, Fail> {
    let of_log = Steps::new(alloc, usize::MAX, usize::MAX);
    let of_home = Steps::new(alloc, usize::MAX, usize::MAX);
    let disk = ThreadedDisk::over(opening(&of_log), opening(&of_home), BLOCKS)?;
    let (mut log, mut home, mut sources) = disk.split(alloc, 1)?;
    let mut content = block(alloc, 7)?;
    let answer = make(
        row.call,
        &mut log,
        &mut home,
        sources.as_mut_slice(),
        &mut content,
    );
    drop((log, home, sources));
    let asked_log = of_log.made.into_inner();
    let asked_home = of_home.made.into_inner();
    Ok(
        answer == row.answer
            && asked_log.as_slice() == row.of_log
            && asked_home.as_slice() == row.of_home,
    )
}

#[test]
fn what_the_parts_ask(rt: HostRuntime) -> Result<(), Fail> {
    for row in &ROWS {
        assert!(rt; is_met(rt.alloc(), row)?, "{}", row.says);
    }
    Ok(())
}

// Whether a second opening of this file is taken for one of the first.
fn is_taken_for_same(rt: &HostRuntime, one: &str, other: &str) -> io::Result<bool> {
    let mut options = OpenOptions::new();
    options.read(true).write(true);
    let first = options.open(rt, one)?;
    let second = options.open(rt, other)?;
    Ok(ThreadedDisk::over(first, second, 3).is_ok())
}

#[test]
fn another_file_is_no_second_opening(rt: HostRuntime) -> Result<(), Fail> {
    let (one, other) = ("beside.tmp", "other.tmp");
    drop(FileDisk::create(&rt, one, 3)?);
    drop(FileDisk::create(&rt, other, 3)?);
    assert!(rt; is_taken_for_same(&rt, one, one)? && !is_taken_for_same(&rt, one, other)?);
    std::fs::remove_file(&rt, one)?;
    std::fs::remove_file(&rt, other)?;
    Ok(())
}
