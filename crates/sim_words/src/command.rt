//! What a line of a script asks for.

use nfs_types::{Call, Credential, Moment, NumberList, Octets};

/// How many workers a script has. They count from 0.
pub const WORKERS: u32 = 4;

/// Which content a crash leaves of each block that has several.
#[derive(Drop)]
pub enum Choice {
    /// The first.
    Old,
    /// The last.
    New,
    /// That of an index from 0, a number a block in rising order of the blocks: past the contents it is the last,
    /// and where the numbers end it is the first.
    Each(NumberList),
}

/// An event of a run that hands over no call.
#[derive(Clone, Copy)]
pub enum OneEvent {
    Work(u32),
    Read(u32),
    Log,
    LogIo,
    Install,
    InstIo,
}

/// What happens to an open store.
#[derive(Drop)]
pub enum Action {
    /// A message that calls a procedure of NFS is handed to a worker.
    Call {
        worker: u32,
        xid: u32,
        credential: Credential,
        call: Call,
    },
    /// A worker goes on, often enough for any procedure.
    Drive(u32),
    /// The log makes so many device calls.
    Log(u32),
    /// The installer makes so many.
    Install(u32),
    /// One event.
    Event(OneEvent),
    /// The device call of this number fails, counted from 1, those of the opening among them.
    Fail(u32),
}

/// What a line asks for.
#[derive(Drop)]
pub enum Command {
    /// What follows happens at this moment.
    Time(Moment),
    /// An image is made, and opened.
    Image {
        blocks: u32,
        inodes: u32,
    },
    /// The image that a crash left is opened.
    Open,
    /// Something happens to the open store.
    Act(Action),
    /// The device stops.
    Crash(Choice),
    /// Bytes of a block are changed, from an offset on.
    Poke {
        block: u32,
        offset: u32,
        bytes: Octets,
    },
    /// The files are told.
    Show,
}
