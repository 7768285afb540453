//! A device in memory behind a lock, cut into what threads use: for tests of threads. Each call of a port or a
//! source takes the lock, so it may wait.
ghost use Rattle.std.specs.Prelude.{◌≡◌, All, IfOk, OnOk, [], length};
ghost use Rattle.disk.specs.Ports.{LiesOn};
ghost use Rattle.disk.specs.declared.block.Side.TheVariants as sides;

use crate::ports::{Port, PortCall, Source};
use crate::{Block, BlockNo, CrashDisk, Failed, MemDisk, Side};
use http_server::Log;
use std::alloc::{AllocError, Global};
use std::snapshot::Snapshot;
use std::sync::{Mutex, Wait};

/// One side of a device in memory. Each call of it is one call of the device, and is noted for proofs alone.
#[derive(Drop)]
pub struct MemPort<'a, R: Wait> {
    rt: &'a R,
    disk: &'a Mutex<MemDisk>,
    blocks: u32,
    side: Side,
    traced: Log<PortCall, Result<(), Failed>>,
}

/// The home blocks of a device in memory. Each read of it is one read of the device, and is noted for proofs
/// alone.
#[derive(Drop)]
pub struct MemSource<'a, R: Wait> {
    rt: &'a R,
    disk: &'a Mutex<MemDisk>,
    blocks: u32,
    traced: Log<PortCall, Result<(), Failed>>,
}

impl MemDisk {
    /// The log side, the home side, and so many sources of a device that lies behind a lock. No call was made
    /// of any. Once they are dropped the device can be taken out of the lock.
    pub fn split<'a, R: Wait>(
        rt: &'a R,
        alloc: Global,
        disk: &'a Mutex<MemDisk>,
        workers: usize,
    ) -> Result<(MemPort<'a, R>, MemPort<'a, R>, Vec<MemSource<'a, R>>), AllocError>
        ensures log { IfOk result (λ parts. (parts.0.side ≡ sides.Log) × (parts.0.traced.items ≡ [])) }
        ensures home { IfOk result (λ parts. (parts.1.side ≡ sides.Home) × (parts.1.traced.items ≡ [])) }
        ensures count { IfOk result (λ parts. length parts.2.items ≡ workers) }
        ensures sources { IfOk result (λ parts. All (λ source. source.traced.items ≡ []) parts.2.items) }
    {
        let blocks = disk.lock(rt).blocks();
        let sources = sources_of(rt, alloc, disk, blocks, workers)?;
        Ok((
            MemPort::new(rt, disk, blocks, Side::Log),
            MemPort::new(rt, disk, blocks, Side::Home),
            sources,
        ))
    }
}

// So many sources of a device.
fn sources_of<'a, R: Wait>(
    rt: &'a R,
    alloc: Global,
    disk: &'a Mutex<MemDisk>,
    blocks: u32,
    count: usize,
) -> Result<Vec<MemSource<'a, R>>, AllocError>
    ensures count { IfOk result (λ sources. length sources.items ≡ count) }
    ensures fresh { IfOk result (λ sources. All (λ source. source.traced.items ≡ []) sources.items) }
{
    let mut sources = Vec::with_capacity(alloc, count)?;
    for _made in 0..count {
        sources.push(MemSource::new(rt, disk, blocks))?;
    }
    Ok(sources)
}

impl<'a, R: Wait> MemPort<'a, R> {
    fn new(rt: &'a R, disk: &'a Mutex<MemDisk>, blocks: u32, side: Side) -> MemPort<'a, R>
        ensures side { result.side ≡ side }
        ensures traced { result.traced.items ≡ [] }
    {
        MemPort {
            rt,
            disk,
            blocks,
            side,
            traced: Log::new(),
        }
    }

    // Writes a block that is there.
    fn put(&self, block: BlockNo, content: &Block) -> Result<(), Failed>
        ensures { OnOk result (LiesOn self.now.blocks self.now.side block.0) }
    {
        let mut disk = self.disk.lock(self.rt);
        if block.0 >= self.blocks || block.0 >= disk.blocks() || block.side() != self.side {
            return Err(Failed);
        }
        disk.write(block, content)
    }

    // Settles this side.
    fn sync(&self, side: Side) -> Result<(), Failed>
        ensures { OnOk result (side ≡ self.now.side) }
    {
        if side != self.side {
            return Err(Failed);
        }
        self.disk.lock(self.rt).barrier(side)
    }
}

impl<'a, R: Wait> Port for MemPort<'a, R> {
    ghost use Rattle.disk.specs.Ports.{answered};

    ghost on = { λ p. p.side };

    ghost size = { λ p. p.blocks };

    ghost calls = { λ p. answered p.traced.items };

    fn write(&mut self, block: BlockNo, content: &Block) -> Result<(), Failed> {
        let result = self.put(block, content);
        let call = PortCall::Write(block, Snapshot::of(content));
        self.traced = self.traced.and(&call, &result);
        result
    }

    fn barrier(&mut self, side: Side) -> Result<(), Failed> {
        let result = self.sync(side);
        self.traced = self.traced.and(&PortCall::Barrier(side), &result);
        result
    }
}

impl<'a, R: Wait> MemSource<'a, R> {
    fn new(rt: &'a R, disk: &'a Mutex<MemDisk>, blocks: u32) -> MemSource<'a, R>
        ensures { result.traced.items ≡ [] }
    {
        MemSource {
            rt,
            disk,
            blocks,
            traced: Log::new(),
        }
    }

    // Reads a home block that is there.
    fn get(&self, block: BlockNo, out: &mut Block) -> Result<(), Failed>
        ensures { OnOk result (LiesOn self.now.blocks sides.Home block.0) }
    {
        let mut disk = self.disk.lock(self.rt);
        if block.0 >= self.blocks || block.0 >= disk.blocks() || block.side() != Side::Home {
            return Err(Failed);
        }
        disk.read(block, out)
    }
}

impl<'a, R: Wait> Source for MemSource<'a, R> {
    ghost use Rattle.disk.specs.Ports.{answered};

    ghost size = { λ s. s.blocks };

    ghost calls = { λ s. answered s.traced.items };

    fn read(&mut self, block: BlockNo, out: &mut Block) -> Result<(), Failed> {
        let result = self.get(block, out);
        let call = PortCall::Read(block, Snapshot::of(out));
        self.traced = self.traced.and(&call, &result);
        result
    }
}
