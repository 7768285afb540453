//! The two sides of a device for two threads, and its home blocks for further ones.
ghost use Rattle.std.specs.Prelude.{◌≡◌, ℕ, ◌∷◌, ◌++◌, [], OnOk, IfOk, All, length};
ghost use Rattle.disk.specs.Overlap.{reads, settles, writes};
ghost use Rattle.disk.specs.Ports.{AnsweredCalls, LiesOn};
ghost use Rattle.disk.specs.declared.block.Side.{Side};
ghost use Rattle.disk.specs.declared.block.Side.TheVariants.{Home, Log};

use crate::{Block, BlockNo, Failed, Side};
use std::alloc::{AllocError, Global};
use std::snapshot::Snapshot;

/// One side of a device, for one thread. What it is asked it makes, or counts as a failure: a write past the
/// end or of the other side, and a barrier of the other side, ask nothing of the device.
pub trait Port {
    /// Its side.
    ghost on: { Self → Side };

    /// How many blocks the device has.
    ghost size: { Self → ℕ };

    /// The calls that were made of it, in their order, each with its answer.
    ghost calls: { Self → AnsweredCalls };

    /// Writes a block. Until a barrier a crash may leave an earlier content in its place.
    fn write(&mut self, block: BlockNo, content: &Block) -> Result<(), Failed>
        ensures call { calls self.new ≡ calls self.old ++ (writes block.0 content.now, result) ∷ [] }
        ensures within { OnOk result (LiesOn (size self.old) (on self.old) block.0) }
        ensures same { (on self.new ≡ on self.old) × (size self.new ≡ size self.old) };

    /// Settles the writes of the side.
    fn barrier(&mut self, side: Side) -> Result<(), Failed>
        ensures call { calls self.new ≡ calls self.old ++ (settles side, result) ∷ [] }
        ensures within { OnOk result (side ≡ on self.old) }
        ensures same { (on self.new ≡ on self.old) × (size self.new ≡ size self.old) };
}

/// The home blocks of a device, for one thread that reads. A block past the end, or of the log side, is a
/// failure that asks nothing of the device.
pub trait Source {
    /// How many blocks the device has.
    ghost size: { Self → ℕ };

    /// The reads that were made of it, in their order, each with what it brought and its answer.
    ghost calls: { Self → AnsweredCalls };

    /// Reads a block. Where that fails, some of its bytes may have come.
    fn read(&mut self, block: BlockNo, out: &mut Block) -> Result<(), Failed>
        ensures call { calls self.new ≡ calls self.old ++ (reads block.0 out.new, result) ∷ [] }
        ensures within { OnOk result (LiesOn (size self.old) Home block.0) }
        ensures same { size self.new ≡ size self.old };
}

/// A device that is cut, by value and so but once, into what its threads use.
pub trait Splits<P: Port, S: Source>: Drop {
    /// How many blocks it has.
    ghost size: { Self → ℕ };

    /// Its log side, its home side, and so many sources, of none of which a call was made.
    fn split(self, alloc: Global, workers: usize) -> Result<(P, P, Vec<S>), AllocError>
        ensures log { IfOk result (λ parts. (P.on parts.0 ≡ Log) × (P.size parts.0 ≡ size self)
            × (P.calls parts.0 ≡ [])) }
        ensures home { IfOk result (λ parts. (P.on parts.1 ≡ Home) × (P.size parts.1 ≡ size self)
            × (P.calls parts.1 ≡ [])) }
        ensures sources { IfOk result (λ parts. All
            (λ source. (S.size source ≡ size self) × (S.calls source ≡ [])) parts.2.items) }
        ensures count { IfOk result (λ parts. length parts.2.items ≡ workers) };
}

/// A call as it is noted, for proofs alone.
#[derive(Drop)]
pub enum PortCall {
    Read(BlockNo, Snapshot<Block>),
    Write(BlockNo, Snapshot<Block>),
    Barrier(Side),
}
