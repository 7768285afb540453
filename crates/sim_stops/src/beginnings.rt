//! The files of images, and those behind each beginning of a history.

use crate::fault::StopsFault;
use base::NANOSECONDS;
use disk::{BlockNo, CrashDisk, MemDisk};
use std::alloc::Global;
use store::{Committed, Line, can_be_spelled, replay, show};

/// The files behind each beginning of a history, none of it at first: its entries are planned one by one on a new image,
/// each in its own context.
pub fn files_behind(
    alloc: Global,
    disk: MemDisk,
    history: Vec<Committed>,
) -> Result<Vec<Vec<Line>>, StopsFault> {
    let mut disk = disk;
    let mut files = Vec::new(alloc);
    files.push(show(alloc, &mut disk)?)?;
    'entries: for entry in history {
        replay_one(alloc, &mut disk, entry)?;
        files.push(show(alloc, &mut disk)?)?;
    }
    Ok(files)
}

// Replays an entry. A run takes no call that can't be replayed, so none is passed over here.
fn replay_one(alloc: Global, disk: &mut MemDisk, entry: Committed) -> Result<(), StopsFault> {
    let Committed { ctx, call, .. } = entry;
    if ctx.moment.nanoseconds >= NANOSECONDS || !can_be_spelled(&call) {
        return Ok(());
    }
    let mut entries = Vec::new(alloc);
    entries.push((ctx, call))?;
    Ok(replay(alloc, disk, &entries)?)
}

/// A device with the newest contents of another.
pub fn copy_of(alloc: Global, disk: &MemDisk) -> Result<MemDisk, StopsFault> {
    let mut copy = MemDisk::new(alloc, disk.blocks())?;
    'blocks: for block in 0..disk.blocks() {
        copy.set(BlockNo(block), disk.newest(BlockNo(block)));
    }
    Ok(copy)
}
