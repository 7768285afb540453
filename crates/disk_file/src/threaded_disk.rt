//! A device over a file of the system, for threads.
ghost use Rattle.std.specs.Prelude.{◌≡◌, [], true, IfOk};
ghost use Rattle.disk.specs.Crash.{IsAtRest};
ghost use Rattle.disk_file.specs.File.{file_device, first_in};

mod split;

use crate::file::TracedFile;
use crate::file_disk::offset;
use crate::{BlockFile, FirstContents};
use disk::{Block, BlockNo, CrashDisk, Failed, Side};
use std::io;
use std::io::ErrorKind;

/// A device over a file that its opener has for itself, with another opening of the file, for the home side once the
/// device is split. The system tells each opening once of a write that failed behind its answer: so both sides hear of
/// it.
#[derive(Drop)]
pub struct ThreadedDisk<F: BlockFile> {
    file: TracedFile<F>,
    home: F,
    blocks: u32,
    first: FirstContents,
    pub ghost locked: { F.is_locked file.file ≡ true },
}

impl<F: BlockFile> ThreadedDisk<F> {
    /// A device of the first blocks of a file that was locked and whose writes are settled, with another opening of it. It
    /// fails where that is of another file, or the files can't be asked.
    pub fn over(file: F, home: F, blocks: u32) -> io::Result<ThreadedDisk<F>>
        requires { F.is_locked file ≡ true }
        ensures size { IfOk result (λ d. d.blocks ≡ blocks) }
        ensures fresh { IfOk result (λ d. d.file.calls.items ≡ []) }
        ensures rest { IfOk result (λ d. IsAtRest (file_device (first_in d.first.blocks.items) d.blocks
            d.file.calls.items)) }
    {
        let file = TracedFile::new(file);
        if !file.is_same(&home)? {
            return Err(io::Error::from(ErrorKind::InvalidInput));
        }
        Ok(ThreadedDisk {
            file,
            home,
            blocks,
            first: FirstContents::whatever(),
        })
    }

    /// The same device, of a file that held this when it was opened. A function that takes any `first` and
    /// hands it here tells of the device whatever its file held.
    pub fn beginning_with(self, first: FirstContents) -> ThreadedDisk<F>
        requires { self.file.calls.items ≡ [] }
        ensures first { result.first ≡ first }
        ensures size { result.blocks ≡ self.blocks }
        ensures fresh { result.file.calls.items ≡ [] }
        ensures rest { IsAtRest (file_device (first_in first.blocks.items) result.blocks
            result.file.calls.items) }
    {
        ThreadedDisk {
            file: self.file,
            home: self.home,
            blocks: self.blocks,
            first,
        }
    }
}

impl<F: BlockFile> CrashDisk for ThreadedDisk<F> {
    ghost use Rattle.disk_file.specs.File.{KeepsModel};
    ghost use Rattle.disk_file.specs.FileBlocks.{file_blocks};

    ghost device = { λ d. file_device (first_in d.first.blocks.items) d.blocks d.file.calls.items };

    ghost keeps_model = { λ d. KeepsModel (first_in d.first.blocks.items) d.blocks d.file.calls.items };

    ghost whole = { λ d preserves. file_blocks (first_in d.first.blocks.items) d.blocks d.file.calls.items preserves
        d.file.whole };

    fn blocks(&self) -> u32 {
        self.blocks
    }

    fn read(&mut self, block: BlockNo, out: &mut Block) -> Result<(), Failed> {
        self.file.read(offset(block), out)
    }

    fn write(&mut self, block: BlockNo, content: &Block) -> Result<(), Failed> {
        self.file.write(offset(block), content)
    }

    fn barrier(&mut self, side: Side) -> Result<(), Failed> {
        self.file.sync(side)
    }
}
