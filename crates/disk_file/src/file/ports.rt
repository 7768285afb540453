//! A file that several threads share: a port for each side, and sources for those that read.
ghost use Rattle.std.specs.Prelude.{◌≡◌, ◌*◌, [], ◌∷◌, ◌++◌, false, is_err, IfOk, OnOk};
ghost use Rattle.std.specs.Arc.{arc_value};
ghost use Rattle.base.specs.declared.TheConstants.{BLOCK_BYTES};
ghost use Rattle.disk_file.specs.Extent.{EndWith};
ghost use Rattle.disk.specs.Ports.{LiesOn, answered};
ghost use Rattle.disk.specs.declared.block.Side.TheVariants.{Home};

use super::extent::Extent;
use super::{BlockFile, TracedFile};
use crate::file_disk::offset;
use disk::{Block, BlockNo, Failed, Port, PortCall, Side, Source};
use http_server::Log;
use std::alloc::{AllocError, Global};
use std::snapshot::Snapshot;
use std::sync::Arc;

/// One side of a file. Writes of blocks that follow each other are gathered: an extent of them is one call of the file,
/// which is made before the next extent begins and before a barrier. Each barrier is one call more. Calls that aren't
/// within the device or not of its side ask nothing. Each is noted for proofs alone.
#[derive(Drop)]
pub struct FilePort<F: BlockFile> {
    file: Arc<F, Global>,
    blocks: u32,
    side: Side,
    // The writes that are still to be made.
    extent: Extent,
    // An extent was lost, whose writes were answered Ok: then nothing is written or settled any more.
    is_lost: bool,
    traced: Log<PortCall, Result<(), Failed>>,
}

/// The home blocks of a file. Each read of one that is there is one read of the file, and no other asks anything. Each
/// is noted for proofs alone.
#[derive(Drop)]
pub struct FileSource<F: BlockFile> {
    file: Arc<F, Global>,
    blocks: u32,
    traced: Log<PortCall, Result<(), Failed>>,
}

impl<F: BlockFile> TracedFile<F> {
    // The file, to be shared. What was noted of it is told no more.
    pub(crate) fn shared(self, alloc: Global) -> Result<Arc<F, Global>, AllocError>
        ensures { IfOk result (λ file. arc_value file ≡ self.file) }
    {
        let TracedFile { file, calls: _ } = self;
        Ok(Arc::new(alloc, file)?)
    }
}

impl<F: BlockFile> FilePort<F> {
    // A side of a file of so many blocks.
    pub(crate) fn new(
        alloc: Global,
        file: Arc<F, Global>,
        blocks: u32,
        side: Side,
    ) -> Result<FilePort<F>, AllocError>
        ensures file { IfOk result (λ port. port.file ≡ file) }
        ensures blocks { IfOk result (λ port. port.blocks ≡ blocks) }
        ensures side { IfOk result (λ port. port.side ≡ side) }
        ensures traced { IfOk result (λ port. port.traced.items ≡ []) }
    {
        Ok(FilePort {
            file,
            blocks,
            side,
            extent: Extent::new(alloc)?,
            is_lost: false,
            traced: Log::new(),
        })
    }

    // Has a block that is there written: behind those that are still to be written, or once they are.
    fn put(&mut self, block: BlockNo, content: &Block) -> Result<(), Failed>
        ensures within { OnOk result (LiesOn self.old.blocks self.old.side block.0) }
        ensures extent { OnOk result (EndWith self.new.extent.first self.new.extent.bytes.items (block.0 * BLOCK_BYTES)
            content.now) }
        ensures lost { OnOk result ((self.old.is_lost ≡ false) × (self.new.is_lost ≡ false)) }
        ensures blocks { self.new.blocks ≡ self.old.blocks }
        ensures side { self.new.side ≡ self.old.side }
        ensures traced { self.new.traced ≡ self.old.traced }
    {
        if self.is_lost || block.0 >= self.blocks || block.side() != self.side {
            return Err(Failed);
        }
        let at = offset(block);
        if !self.extent.goes_on_at(at) {
            self.flush()?;
            self.extent.begin_at(at);
        }
        self.extent.push(content);
        Ok(())
    }

    // Makes the writes that are still to be made.
    fn flush(&mut self) -> Result<(), Failed>
        ensures extent { self.new.extent.bytes.items ≡ [] }
        ensures lost { self.new.is_lost ≡ is_err result }
        ensures blocks { self.new.blocks ≡ self.old.blocks }
        ensures side { self.new.side ≡ self.old.side }
        ensures traced { self.new.traced ≡ self.old.traced }
    {
        let made = self.extent.write_to(&*self.file);
        self.is_lost = made.is_err();
        made
    }

    // Settles this side.
    fn sync(&mut self, side: Side) -> Result<(), Failed>
        ensures within { OnOk result (side ≡ self.old.side) }
        ensures extent { OnOk result (self.new.extent.bytes.items ≡ []) }
        ensures lost { OnOk result ((self.old.is_lost ≡ false) × (self.new.is_lost ≡ false)) }
        ensures blocks { self.new.blocks ≡ self.old.blocks }
        ensures side { self.new.side ≡ self.old.side }
        ensures traced { self.new.traced ≡ self.old.traced }
    {
        if self.is_lost || side != self.side {
            return Err(Failed);
        }
        self.flush()?;
        self.file.sync_data().or(Err(Failed))
    }
}

impl<F: BlockFile> Port for FilePort<F> {
    ghost use Rattle.disk.specs.Ports.{answered};

    ghost on = { λ p. p.side };

    ghost size = { λ p. p.blocks };

    ghost calls = { λ p. answered p.traced.items };

    fn write(&mut self, block: BlockNo, content: &Block) -> Result<(), Failed> {
        let result = self.put(block, content);
        let call = PortCall::Write(block, Snapshot::of(content));
        self.traced = self.traced.and(&call, &result);
        result
    }

    fn barrier(&mut self, side: Side) -> Result<(), Failed> {
        let result = self.sync(side);
        self.traced = self.traced.and(&PortCall::Barrier(side), &result);
        result
    }
}

impl<F: BlockFile> FileSource<F> {
    // The home blocks of a file of so many.
    pub(crate) fn new(file: Arc<F, Global>, blocks: u32) -> FileSource<F>
        ensures blocks { result.blocks ≡ blocks }
        ensures traced { result.traced.items ≡ [] }
    {
        FileSource {
            file,
            blocks,
            traced: Log::new(),
        }
    }

    // Reads a home block that is there.
    fn get(&self, block: BlockNo, out: &mut Block) -> Result<(), Failed>
        ensures { OnOk result (LiesOn self.now.blocks Home block.0) }
    {
        if block.0 >= self.blocks || block.side() != Side::Home {
            return Err(Failed);
        }
        self.file
            .read_exact_at(out.as_mut_slice(), offset(block))
            .or(Err(Failed))
    }
}

impl<F: BlockFile> Source for FileSource<F> {
    ghost use Rattle.disk.specs.Ports.{answered};

    ghost size = { λ s. s.blocks };

    ghost calls = { λ s. answered s.traced.items };

    fn read(&mut self, block: BlockNo, out: &mut Block) -> Result<(), Failed> {
        let result = self.get(block, out);
        let call = PortCall::Read(block, Snapshot::of(out));
        self.traced = self.traced.and(&call, &result);
        result
    }
}
