//! A file that is watched.
use crate::{Alarm, Asked, BlockFile};
use std::fs::{Metadata, OpenFile};
use std::io;
use std::io::{Eprint, ErrorKind};
use std::os::unix::fs::FileExt;
use std::time::Clock;

/// A file of which each write and each sync that fails is told: what it answers is what the file below answers.
#[derive(Drop)]
pub struct WatchedFile<'a, F, R> {
    file: F,
    alarm: &'a Alarm<'a, R>,
}

impl<'a, F: BlockFile, R: Clock + Eprint> WatchedFile<'a, F, R> {
    ghost use Rattle.std.specs.Prelude.{◌≡◌};

    /// This file, whose failures this alarm tells of.
    pub fn new(file: F, alarm: &'a Alarm<'a, R>) -> WatchedFile<'a, F, R>
        ensures { result.file ≡ file }
    {
        WatchedFile { file, alarm }
    }

    // Hands on what came of a sync, and tells of it where it failed.
    fn watch(&self, synced: io::Result<()>) -> io::Result<()> {
        if let Err(error) = &synced {
            self.alarm.tell(Asked::Sync, error);
        }
        synced
    }
}

impl<F: BlockFile, R: Clock + Eprint> BlockFile for WatchedFile<'_, F, R> {
    ghost is_locked = { λ w. F.is_locked w.file };

    fn lock(&self) -> io::Result<()> {
        self.file.lock()
    }
}

impl<F: BlockFile, R: Clock + Eprint> FileExt for WatchedFile<'_, F, R> {
    fn read_at(&self, buf: &mut [u8], offset: u64) -> io::Result<usize> {
        self.file.read_at(buf, offset)
    }

    fn write_at(&self, buf: &[u8], offset: u64) -> io::Result<usize> {
        let written = self.file.write_at(buf, offset);
        match &written {
            Err(error) if error.kind() != ErrorKind::Interrupted => {
                self.alarm.tell(Asked::Write, error);
            }
            Ok(0) => {
                if !buf.is_empty() {
                    let error = io::Error::from(ErrorKind::WriteZero);
                    self.alarm.tell(Asked::Write, &error);
                }
            }
            _ => {}
        }
        written
    }
}

impl<F: BlockFile, R: Clock + Eprint> OpenFile for WatchedFile<'_, F, R> {
    fn metadata(&self) -> io::Result<Metadata> {
        self.file.metadata()
    }

    fn set_len(&self, size: u64) -> io::Result<()> {
        self.file.set_len(size)
    }

    fn sync_all(&self) -> io::Result<()> {
        self.watch(self.file.sync_all())
    }

    fn sync_data(&self) -> io::Result<()> {
        self.watch(self.file.sync_data())
    }
}
