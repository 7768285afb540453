//! A device over a file of the system.
ghost use Rattle.std.specs.Prelude.{◌≡◌, ◌*◌, [], IfOk};
ghost use Rattle.base.specs.declared.TheConstants.{BLOCK_BYTES};
ghost use Rattle.disk.specs.Crash.{IsAtRest};
ghost use Rattle.disk_file.specs.File.{file_device, first_in};

use crate::file::TracedFile;
use crate::{BlockFile, FirstContents, open_locked};
use base::BLOCK_BYTES;
use disk::{Block, BlockNo, CrashDisk, Failed, Side};
use std::fs::{File, Files, OpenFile, OpenOptions};
use std::io;
use std::io::ErrorKind;
use std::os::unix::fs::OpenOptionsExt;
use std::path::Path;

// The permission bits of a file that is made: it holds the files of every user, so it is its owner's alone.
const OWNER_ONLY: u32 = 0o600;

/// A device over a file. What the file held when it was opened is any: no contract of an opening says it.
#[derive(Drop)]
pub struct FileDisk<F: BlockFile> {
    file: TracedFile<F>,
    blocks: u32,
    first: FirstContents,
}

// Opens a file, or makes it where there is none. One that was made is its owner's alone, and its folder is
// settled, so that no crash loses its name.
fn open_or_make<R: Files>(rt: &R, path: &str) -> io::Result<R::File> {
    let mut options = OpenOptions::new();
    options.read(true).write(true);
    match options.open(rt, path) {
        Err(error) if error.kind() == ErrorKind::NotFound => {
            options.create_new(true).mode(OWNER_ONLY);
            let file = options.open(rt, path)?;
            File::open(rt, folder_of(path))?.sync_all()?;
            Ok(file)
        }
        opened => opened,
    }
}

// The folder that a file lies in.
fn folder_of(path: &str) -> &str {
    match Path::new(path).parent() {
        Some(folder) if !folder.as_str().is_empty() => folder.as_str(),
        _ => ".",
    }
}

/// Where the bytes of a block begin in a file.
pub(crate) fn offset(block: BlockNo) -> u64
    ensures { result ≡ block.0 * BLOCK_BYTES }
{
    u64::from(block.0) * BLOCK_BYTES as u64
}

impl<F: BlockFile> FileDisk<F> {
    /// A device of the first blocks of a file whose writes are settled.
    pub fn over(file: F, blocks: u32) -> FileDisk<F>
        ensures size { result.blocks ≡ blocks }
        ensures fresh { result.file.calls.items ≡ [] }
        ensures rest { IsAtRest (file_device (first_in result.first.blocks.items) result.blocks
            result.file.calls.items) }
    {
        FileDisk {
            file: TracedFile::new(file),
            blocks,
            first: FirstContents::whatever(),
        }
    }

    /// The same device, of a file that held this when it was opened. A function that takes any `first` and
    /// hands it here tells of the device whatever its file held.
    pub fn beginning_with(self, first: FirstContents) -> FileDisk<F>
        requires { self.file.calls.items ≡ [] }
        ensures first { result.first ≡ first }
        ensures size { result.blocks ≡ self.blocks }
        ensures fresh { result.file.calls.items ≡ [] }
        ensures rest { IsAtRest (file_device (first_in first.blocks.items) result.blocks
            result.file.calls.items) }
    {
        FileDisk {
            file: self.file,
            blocks: self.blocks,
            first,
        }
    }

    /// Opens a file of blocks, locks it, and then settles it. Its blocks are the whole ones of its length, up
    /// to the greatest number of them.
    pub fn open<R: Files<File = F>>(rt: &R, path: &str) -> io::Result<FileDisk<F>>
        ensures rest { IfOk result (λ d. IsAtRest (file_device (first_in d.first.blocks.items) d.blocks
            d.file.calls.items)) }
        ensures fresh { IfOk result (λ d. d.file.calls.items ≡ []) }
    {
        let file = open_locked::<R, F>(rt, path)?;
        let blocks = file.metadata()?.len() / BLOCK_BYTES as u64;
        Ok(FileDisk::over(file, blocks.min(u64::from(u32::MAX)) as u32))
    }

    /// Opens or makes a file, locks it, and then gives it this many blocks and settles it. Blocks that it had
    /// stay, and new ones are zeros. One that was made is its owner's alone, and its folder is settled too.
    pub fn create<R: Files<File = F>>(rt: &R, path: &str, blocks: u32) -> io::Result<FileDisk<F>>
        ensures size { IfOk result (λ d. d.blocks ≡ blocks) }
        ensures rest { IfOk result (λ d. IsAtRest (file_device (first_in d.first.blocks.items) d.blocks
            d.file.calls.items)) }
        ensures fresh { IfOk result (λ d. d.file.calls.items ≡ []) }
    {
        let file = open_or_make(rt, path)?;
        file.lock()?;
        file.set_len(offset(BlockNo(blocks)))?;
        file.sync_all()?;
        Ok(FileDisk::over(file, blocks))
    }
}

impl<F: BlockFile> CrashDisk for FileDisk<F> {
    ghost use Rattle.disk_file.specs.File.{KeepsModel};
    ghost use Rattle.disk_file.specs.FileBlocks.{file_blocks};

    ghost device = { λ d. file_device (first_in d.first.blocks.items) d.blocks d.file.calls.items };

    ghost keeps_model = { λ d. KeepsModel (first_in d.first.blocks.items) d.blocks d.file.calls.items };

    ghost whole = { λ d preserves. file_blocks (first_in d.first.blocks.items) d.blocks d.file.calls.items preserves
        d.file.whole };

    fn blocks(&self) -> u32 {
        self.blocks
    }

    fn read(&mut self, block: BlockNo, out: &mut Block) -> Result<(), Failed> {
        self.file.read(offset(block), out)
    }

    fn write(&mut self, block: BlockNo, content: &Block) -> Result<(), Failed> {
        self.file.write(offset(block), content)
    }

    fn barrier(&mut self, side: Side) -> Result<(), Failed> {
        self.file.sync(side)
    }
}
