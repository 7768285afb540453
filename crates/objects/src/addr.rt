//! The address of an object.
ghost use Rattle.std.specs.Prelude.{◌≡◌, ◌+◌, ◌<◌, ◌≤◌, ◌↔◌, IsTrue, IsSome, IfSome};
ghost use Rattle.base.specs.declared.TheConstants.{BLOCK_BYTES};

use base::BLOCK_BYTES;
use disk::BlockNo;

/// Where an object lies: `len` bytes of a block from `offset` on, at least one and all within the block.
#[derive(Clone, Copy, Debug, PartialEq, Eq, PartialOrd, Ord)]
pub struct Addr {
    pub block: BlockNo,
    pub offset: usize,
    pub len: usize,
    pub ghost some: { 0 < len },
    pub ghost within: { offset + len ≤ BLOCK_BYTES },
}

impl Addr {
    ghost use Rattle.objects.specs.Addr.{Overlap};

    /// The address of these bytes, if there are any and the block has them.
    pub fn new(block: BlockNo, offset: usize, len: usize) -> Option<Addr>
        ensures some { IsSome result ↔ ((0 < len) × (offset + len ≤ BLOCK_BYTES)) }
        ensures value { IfSome result (λ a. (a.block ≡ block) × (a.offset ≡ offset) × (a.len ≡ len)) }
    {
        if len == 0 || len > BLOCK_BYTES || offset > BLOCK_BYTES - len {
            return None;
        }
        Some(Addr { block, offset, len })
    }

    /// The address of a whole block.
    pub fn whole(block: BlockNo) -> Addr
        ensures value { (result.block ≡ block) × (result.offset ≡ 0) × (result.len ≡ BLOCK_BYTES) }
    {
        Addr {
            block,
            offset: 0,
            len: BLOCK_BYTES,
        }
    }

    /// Whether a byte lies in both.
    pub fn overlaps(self, other: Addr) -> bool
        ensures { IsTrue result ↔ Overlap self other }
    {
        self.block == other.block
            && self.offset < other.offset + other.len
            && other.offset < self.offset + self.len
    }
}
