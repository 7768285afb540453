//! A file and a file system that stand in for the kit's, and keep each call that is made of them.

use base::BLOCK_BYTES;
use disk_file::BlockFile;
use std::alloc::Global;
use std::cell::RefCell;
use std::fs::{Files, Metadata, OpenFile, OpenOptions};
use std::io;
use std::io::{ErrorKind, Read, Seek, SeekFrom, Write};
use std::os::unix::fs::FileExt;

// A call of the file system.
#[derive(Clone, Copy, Debug, PartialEq, Eq)]
pub enum Step {
    // The file, as it is.
    Open,
    // The file, which must not be there.
    Make,
    // The folder `images`.
    OpenFolder,
    SyncFolder,
    Lock,
    Length(u64),
    Sync,
    AskLength,
    // From this offset on, up to so many bytes.
    ReadAt(u64, usize),
    WriteAt(u64, usize),
    SyncData,
    // Any other.
    Other,
}

// The calls so far, of which those with this many before them and more fail, and the bytes that were written.
// A read or a write takes no more bytes than a piece has.
#[derive(Drop)]
pub struct Steps {
    pub made: RefCell<Vec<Step>>,
    pub written: RefCell<Vec<u8>>,
    failing: usize,
    piece: usize,
}

impl Steps {
    pub fn new(alloc: Global, failing: usize, piece: usize) -> Steps {
        Steps {
            made: RefCell::new(Vec::new(alloc)),
            written: RefCell::new(Vec::new(alloc)),
            failing,
            piece,
        }
    }

    // Notes a call, and fails where it is to fail.
    fn make(&self, step: Step) -> io::Result<()> {
        let Ok(mut made) = self.made.try_borrow_mut() else {
            return Err(ErrorKind::Other.into());
        };
        made.push(step)?;
        if made.len() > self.failing {
            return Err(ErrorKind::StorageFull.into());
        }
        Ok(())
    }
}

// A file, or the folder. Each byte of the file is the number of its block.
#[derive(Drop)]
pub struct Fake<'a> {
    pub steps: &'a Steps,
    pub is_folder: bool,
}

impl BlockFile for Fake<'_> {
    ghost use Rattle.std.specs.Prelude.{true};

    ghost is_locked = { λ f. true };

    fn lock(&self) -> io::Result<()> {
        self.steps.make(Step::Lock)
    }
}

impl FileExt for Fake<'_> {
    fn read_at(&self, buf: &mut [u8], offset: u64) -> io::Result<usize> {
        self.steps.make(Step::ReadAt(offset, buf.len()))?;
        let count = buf.len().min(self.steps.piece);
        buf[..count].fill((offset / BLOCK_BYTES as u64 % 256) as u8);
        Ok(count)
    }

    fn write_at(&self, buf: &[u8], offset: u64) -> io::Result<usize> {
        self.steps.make(Step::WriteAt(offset, buf.len()))?;
        let Ok(mut written) = self.steps.written.try_borrow_mut() else {
            return Err(ErrorKind::Other.into());
        };
        let count = buf.len().min(self.steps.piece);
        written.extend_from_slice(&buf[..count])?;
        Ok(count)
    }
}

impl OpenFile for Fake<'_> {
    fn metadata(&self) -> io::Result<Metadata> {
        self.steps.make(Step::AskLength)?;
        Ok(Metadata::of_file(8192))
    }

    fn set_len(&self, size: u64) -> io::Result<()> {
        self.steps.make(Step::Length(size))
    }

    fn sync_all(&self) -> io::Result<()> {
        self.steps.make(if self.is_folder {
            Step::SyncFolder
        } else {
            Step::Sync
        })
    }

    fn sync_data(&self) -> io::Result<()> {
        self.steps.make(Step::SyncData)
    }
}

impl Read for Fake<'_> {
    fn read(&mut self, _buf: &mut [u8]) -> io::Result<usize> {
        self.steps.make(Step::Other)?;
        Ok(0)
    }
}

impl Write for Fake<'_> {
    fn write(&mut self, _buf: &[u8]) -> io::Result<usize> {
        self.steps.make(Step::Other)?;
        Ok(0)
    }

    fn flush(&mut self) -> io::Result<()> {
        self.steps.make(Step::Other)
    }
}

impl Seek for Fake<'_> {
    fn seek(&mut self, _to: SeekFrom) -> io::Result<u64> {
        self.steps.make(Step::Other)?;
        Ok(0)
    }
}

// A file system with the folder `images`, and in it the file `a.img` or nothing.
#[derive(Drop)]
pub struct FakeFiles<'a> {
    pub steps: &'a Steps,
    pub has_image: bool,
}

// A call that this file system doesn't know.
fn unknown<T>() -> io::Result<T> {
    Err(ErrorKind::Unsupported.into())
}

impl<'a> Files for FakeFiles<'a> {
    type File = Fake<'a>;

    type Dir = Fake<'a>;

    fn open_file(&self, how: &OpenOptions, path: &str) -> io::Result<Fake<'a>> {
        how.check()?;
        let is_folder = path == "images";
        if !is_folder && path != "images/a.img" {
            return Err(ErrorKind::NotFound.into());
        }
        self.steps.make(match (is_folder, how.asks_create_new()) {
            (true, _) => Step::OpenFolder,
            (false, true) => Step::Make,
            (false, false) => Step::Open,
        })?;
        if !is_folder && !self.has_image && !how.asks_create_new() {
            return Err(ErrorKind::NotFound.into());
        }
        Ok(Fake {
            steps: self.steps,
            is_folder,
        })
    }

    fn open_dir(&self, _path: &str) -> io::Result<Fake<'a>> {
        unknown()
    }

    fn metadata(&self, _path: &str) -> io::Result<Metadata> {
        unknown()
    }

    fn symlink_metadata(&self, _path: &str) -> io::Result<Metadata> {
        unknown()
    }

    fn copy(&self, _from: &str, _to: &str) -> io::Result<u64> {
        unknown()
    }

    fn rename(&self, _from: &str, _to: &str) -> io::Result<()> {
        unknown()
    }

    fn remove_file(&self, _path: &str) -> io::Result<()> {
        unknown()
    }

    fn create_dir(&self, _path: &str) -> io::Result<()> {
        unknown()
    }

    fn remove_dir(&self, _path: &str) -> io::Result<()> {
        unknown()
    }

    fn remove_dir_all<B: std::alloc::Allocator>(&self, _alloc: B, _path: &str) -> io::Result<()> {
        unknown()
    }
}
