//! The file, or the block device, of an image that is only read.
ghost use Rattle.std.specs.Prelude.{◌≡◌, [], IfOk};

use crate::locked_files::blocks_of_image;
use base::BLOCK_BYTES;
use disk_file::{BlockFile, FileDisk};
use std::fs::{File, Files};
use std::io;
use std::io::{ErrorKind, Seek, SeekFrom};
use std::os::unix::fs::FileTypeExt;

/// An open file, or what stands in for one, that readers can have together.
pub trait SharedFile {
    /// Takes the file, until it is closed, with other programs that take it so. It never waits: it fails where a program
    /// has the file for itself, or where the file system knows no locks.
    fn lock_shared(&self) -> io::Result<()>;
}

impl SharedFile for File {
    fn lock_shared(&self) -> io::Result<()> {
        self.try_lock_shared()?;
        Ok(())
    }
}

/// Opens a file or a block device for reading alone, so that the system refuses each write of it, and takes it with other
/// readers. Its blocks are the whole ones of a file's length, up to the greatest number of them, and those that the
/// image's first block tells of a device. It isn't settled: what is read is what the system has of it. What is neither
/// isn't opened, since an opening of a pipe would wait for a writer.
pub fn open_to_read<R: Files>(rt: &R, path: &str) -> io::Result<FileDisk<R::File>>
where
    R::File: BlockFile + SharedFile,
    ensures { IfOk result (λ d. d.file.calls.items ≡ []) }
{
    let kind = rt.metadata(path)?.file_type();
    if kind.is_dir() {
        return Err(io::Error::from(ErrorKind::IsADirectory));
    }
    if !kind.is_file() && !kind.is_block_device() {
        return Err(io::Error::from(ErrorKind::InvalidInput));
    }
    let mut file = File::open(rt, path)?;
    file.lock_shared()?;
    let size = file.seek(SeekFrom::End(0))? / BLOCK_BYTES as u64;
    let size = size.min(u64::from(u32::MAX)) as u32;
    let blocks = if kind.is_block_device() {
        blocks_of_image(&mut file, size)?
    } else {
        size
    };
    Ok(FileDisk::over(file, blocks))
}
