//! The file below a device: what is asked of it, and what is noted of that.
ghost use Rattle.std.specs.Prelude.{◌≡◌, [], ◌∷◌, ◌++◌, true, IfOk};
ghost use Rattle.std.specs.declared.snapshot.Snapshot.{Snapshot};
ghost use Rattle.disk.specs.Blocks.{IsBlock};
ghost use Rattle.disk.specs.Device.{Content};
ghost use Rattle.disk_file.specs.File.{AreOfBlocks, bytes_of};

mod extent;
pub(crate) mod ports;

use disk::{Block, BlockNo, Failed, Side};
use http_server::Log;
use std::fs::{File, Files, OpenFile, OpenOptions};
use std::io;
use std::os::unix::fs::{FileExt, MetadataExt};
use std::snapshot::Snapshot;

/// An open file of the kit, or what stands in for one, that a program can have for itself.
pub trait BlockFile: FileExt + OpenFile + Drop {
    ghost use Rattle.std.specs.Prelude.{◌≡◌, Bool, true, OnOk};

    /// This program was given the file for itself. Who has any file knows it of one that it has locked, and of no other.
    ghost is_locked: { Self → Bool };

    /// Takes the file for this program alone, until it is closed. It never waits: it fails where another
    /// program has the file, or where the file system knows no locks.
    fn lock(&self) -> io::Result<()>
        ensures { OnOk result (is_locked self.now ≡ true) };
}

impl BlockFile for File {
    ghost use Rattle.std.specs.Prelude.{true};

    // (The kit's model of files has no locks.)
    ghost is_locked = { λ f. true };

    fn lock(&self) -> io::Result<()> {
        self.try_lock()?;
        Ok(())
    }
}

/// Opens a file or a block device, takes it for this program alone, and then settles it.
pub fn open_locked<R, F>(rt: &R, path: &str) -> io::Result<F>
where
    R: Files<File = F>,
    F: BlockFile,
    ensures { IfOk result (λ file. F.is_locked file ≡ true) }
{
    let file = OpenOptions::new().read(true).write(true).open(rt, path)?;
    file.lock()?;
    file.sync_all()?;
    Ok(file)
}

/// A call of a file: a read or a write of a block's bytes from an offset on, or a sync that is to settle the
/// writes of a side.
#[derive(Drop)]
pub enum FileCall {
    Read(u64, Snapshot<Block>),
    Write(u64, Snapshot<Block>),
    Sync(Side),
}

/// A file and the calls that were made of it. Who has one can't call the file without a note of it. The notes
/// are for proofs alone, in `http_server`'s `Log`, and take no memory.
#[derive(Drop)]
pub struct TracedFile<F: BlockFile> {
    file: F,
    calls: Log<FileCall, Result<(), Failed>>,
    ghost whole: { AreOfBlocks calls.items },
}

impl<F: BlockFile> TracedFile<F> {
    /// A file of which no call is noted.
    pub fn new(file: F) -> TracedFile<F>
        ensures calls { result.calls.items ≡ [] }
        ensures file { result.file ≡ file }
    {
        TracedFile {
            file,
            calls: Log::new(),
        }
    }

    /// Reads the bytes of a block from an offset on, all of them or it fails.
    pub fn read(&mut self, offset: u64, out: &mut Block) -> Result<(), Failed>
        ensures call { (bytes : Snapshot Content) × (bytes.value ≡ out.new)
            × (self.new.calls.items ≡ self.old.calls.items ++ (FileCall.Read offset bytes, result) ∷ []) }
        ensures file { self.new.file ≡ self.old.file }
    {
        let result = self
            .file
            .read_exact_at(out.as_mut_slice(), offset)
            .or(Err(Failed));
        out.whole();
        self.trace(&FileCall::Read(offset, Snapshot::of(out)), &result);
        result
    }

    /// Writes the bytes of a block from an offset on. Where it fails some may have been written.
    pub fn write(&mut self, offset: u64, content: &Block) -> Result<(), Failed>
        ensures call { (bytes : Snapshot Content) × (bytes.value ≡ content.now)
            × (self.new.calls.items ≡ self.old.calls.items ++ (FileCall.Write offset bytes, result) ∷ []) }
        ensures file { self.new.file ≡ self.old.file }
    {
        let result = self
            .file
            .write_all_at(content.as_slice(), offset)
            .or(Err(Failed));
        self.trace(&FileCall::Write(offset, Snapshot::of(content)), &result);
        result
    }

    /// Settles what was written, for a side.
    pub fn sync(&mut self, side: Side) -> Result<(), Failed>
        ensures call { self.new.calls.items ≡ self.old.calls.items ++ (FileCall.Sync side, result) ∷ [] }
        ensures file { self.new.file ≡ self.old.file }
    {
        let result = self.file.sync_data().or(Err(Failed));
        self.trace(&FileCall::Sync(side), &result);
        result
    }

    /// Whether another opening is of the same file.
    pub fn is_same(&self, other: &F) -> io::Result<bool> {
        let (one, two) = (self.file.metadata()?, other.metadata()?);
        Ok(one.dev() == two.dev() && one.ino() == two.ino())
    }

    fn trace(&mut self, call: &FileCall, outcome: &Result<(), Failed>)
        requires { IsBlock (bytes_of call.now) }
        ensures calls { self.new.calls.items ≡ self.old.calls.items ++ (call.now, outcome.now) ∷ [] }
        ensures file { self.new.file ≡ self.old.file }
    {
        self.calls = self.calls.and(call, outcome);
    }
}

/// What the blocks of a file held when it was opened. It is for proofs alone: no code can read it, and it
/// takes no memory. A function that is handed one is proved for each.
#[derive(Drop)]
pub struct FirstContents {
    blocks: Log<BlockNo, Block>,
}

impl FirstContents {
    /// What a file held, whatever that was: no clause says it.
    pub fn whatever() -> FirstContents {
        FirstContents { blocks: Log::new() }
    }
}
