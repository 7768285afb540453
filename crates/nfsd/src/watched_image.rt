//! The image of a server, of which a write or a sync that fails is told at once.
ghost use Rattle.std.specs.Prelude.{◌≡◌, [], IfOk};
ghost use Rattle.disk.specs.Crash.{IsAtRest};
ghost use Rattle.disk_file.specs.File.{file_device, first_in};

use crate::locked_files::blocks_in;
use disk_file::{Alarm, BlockFile, ThreadedDisk, WatchedFile, open_locked};
use std::fs::{Files, OpenOptions};
use std::io;
use std::io::Eprint;
use std::time::Clock;

/// Opens a file or a block device as `open_image` does, for threads: it is opened twice, so that each side hears of a
/// write that failed behind its answer, and this alarm tells of both.
pub fn open_for_threads<'a, R: Files, T: Clock + Eprint>(
    rt: &R,
    path: &str,
    alarm: &'a Alarm<'a, T>,
) -> io::Result<ThreadedDisk<WatchedFile<'a, R::File, T>>>
where
    R::File: BlockFile,
    ensures rest { IfOk result (λ d. IsAtRest (file_device (first_in d.first.blocks.items) d.blocks
        d.file.calls.items)) }
    ensures fresh { IfOk result (λ d. d.file.calls.items ≡ []) }
{
    let file = WatchedFile::new(open_locked(rt, path)?, alarm);
    let mut home = OpenOptions::new().read(true).write(true).open(rt, path)?;
    let blocks = blocks_in(rt, path, &mut home)?;
    ThreadedDisk::over(file, WatchedFile::new(home, alarm), blocks)
}
