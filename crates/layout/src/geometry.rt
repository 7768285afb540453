//! Where the parts of an image lie.
ghost use Rattle.std.specs.Prelude.{◌≡◌, ◌+◌, ◌-◌, ◌<◌, ◌≤◌, IfOk, IfErr};
ghost use Rattle.base.specs.declared.TheConstants.{MOST_BLOCKS, INODE_BYTES};
ghost use Rattle.layout.specs.Geometry.{IsLawful, IsLawfulSize, IsLawfulCount, bitmap_blocks};
ghost use Rattle.layout.specs.Geometry.{inode_bitmap_at, table_at, data_at};

use crate::FormatVersion;
use base::{
    BITS_PER_BLOCK, FIRST_HOME_BLOCK, INODE_BYTES, INODES_PER_BLOCK, LEAST_BLOCKS,
    LEAST_DATA_BLOCKS, LEAST_INODES, MOST_BLOCKS, MOST_INODES,
};
use disk::BlockNo;
use objects::Addr;
use thiserror::Error;

/// Why there is no image of these sizes.
#[derive(Clone, Copy, Debug, PartialEq, Eq, Error)]
pub enum GeometryFault {
    /// The count of blocks isn't lawful.
    #[error("Size")]
    Size,
    /// The count of inodes isn't lawful, or leaves too few blocks for data.
    #[error("Inodes")]
    Inodes,
}

/// The version of an image's format, and how many blocks and inodes it has. From these follows where its
/// parts lie and how they are read: behind the log the bitmap of blocks, the bitmap of inodes, the table of
/// inodes and the data.
#[derive(Clone, Copy, Debug, PartialEq, Eq)]
pub struct Geometry {
    pub version: FormatVersion,
    pub blocks: u32,
    pub inodes: u32,
    pub ghost lawful: { IsLawful blocks inodes },
}

impl Geometry {
    ghost use Rattle.layout.specs.Newest.{newest};
    ghost use Rattle.layout.specs.Places.{is_data, inode_block, inode_offset};

    /// The geometry of an image of this version and these sizes. Blocks below 1024 or above 1048576 are refused
    /// first (Size); then inodes below 32, above 65536 or no multiple of 32, and what leaves fewer than 64 data
    /// blocks (Inodes).
    pub fn new(version: FormatVersion, blocks: u32, inodes: u32) -> Result<Geometry, GeometryFault>
        ensures ok { IfOk result (λ g. (g.version ≡ version) × (g.blocks ≡ blocks) × (g.inodes ≡ inodes)
            × IsLawful blocks inodes) }
        ensures err { IfErr result (λ _. IsLawful blocks inodes → ⊥) }
        ensures size { result ≡ Err GeometryFault.Size → IsLawfulSize blocks → ⊥ }
        ensures count { result ≡ Err GeometryFault.Inodes → IsLawfulSize blocks
            × (IsLawfulCount blocks inodes → ⊥) }
    {
        if blocks < LEAST_BLOCKS || blocks > MOST_BLOCKS {
            return Err(GeometryFault::Size);
        }
        if inodes < LEAST_INODES || inodes > MOST_INODES || inodes % INODES_PER_BLOCK != 0 {
            return Err(GeometryFault::Inodes);
        }
        if data_at(blocks, inodes) + LEAST_DATA_BLOCKS > blocks {
            return Err(GeometryFault::Inodes);
        }
        Ok(Geometry {
            version,
            blocks,
            inodes,
        })
    }

    /// The same image in the newest version of the format.
    pub fn newest(&self) -> Geometry
        ensures is { result ≡ newest self.now }
        ensures version { result.version ≡ FormatVersion.Second }
        ensures blocks { result.blocks ≡ self.now.blocks }
        ensures inodes { result.inodes ≡ self.now.inodes }
    {
        Geometry {
            version: FormatVersion::Second,
            blocks: self.blocks,
            inodes: self.inodes,
        }
    }

    /// The first block of the bitmap of inodes.
    pub fn inode_bitmap(&self) -> BlockNo
        ensures { result.0 ≡ inode_bitmap_at self.now.blocks }
    {
        BlockNo(FIRST_HOME_BLOCK + bitmap_blocks(self.blocks))
    }

    /// The first block of the table of inodes.
    pub fn inode_table(&self) -> BlockNo
        ensures { result.0 ≡ table_at self.now.blocks self.now.inodes }
    {
        BlockNo(table_at(self.blocks, self.inodes))
    }

    /// The first data block.
    pub fn data(&self) -> BlockNo
        ensures { result.0 ≡ data_at self.now.blocks self.now.inodes }
    {
        BlockNo(data_at(self.blocks, self.inodes))
    }

    /// How many data blocks there are.
    pub fn data_blocks(&self) -> u32
        ensures { result ≡ self.now.blocks - data_at self.now.blocks self.now.inodes }
    {
        self.blocks - data_at(self.blocks, self.inodes)
    }

    /// Whether the number is that of a data block.
    pub fn is_data(&self, number: u32) -> bool
        ensures { result ≡ is_data self.now number }
    {
        data_at(self.blocks, self.inodes) <= number && number < self.blocks
    }

    /// Where an inode lies.
    pub fn inode_addr(&self, number: u32) -> Addr
        requires { number < self.now.inodes }
        ensures block { result.block.0 ≡ inode_block self.now number }
        ensures offset { result.offset ≡ inode_offset number }
        ensures len { result.len ≡ INODE_BYTES }
    {
        Addr {
            block: BlockNo(table_at(self.blocks, self.inodes) + number / INODES_PER_BLOCK),
            offset: INODE_BYTES * (number % INODES_PER_BLOCK) as usize,
            len: INODE_BYTES,
        }
    }
}

// How many blocks the bitmap of so many items takes.
fn bitmap_blocks(items: u32) -> u32
    requires { items ≤ MOST_BLOCKS }
    ensures { result ≡ bitmap_blocks items }
{
    (items + (BITS_PER_BLOCK - 1)) / BITS_PER_BLOCK
}

// The first block of the table of inodes.
fn table_at(blocks: u32, inodes: u32) -> u32
    requires blocks { blocks ≤ MOST_BLOCKS }
    requires inodes { inodes ≤ MOST_INODES }
    ensures { result ≡ table_at blocks inodes }
{
    FIRST_HOME_BLOCK + bitmap_blocks(blocks) + bitmap_blocks(inodes)
}

// The first data block.
fn data_at(blocks: u32, inodes: u32) -> u32
    requires blocks { blocks ≤ MOST_BLOCKS }
    requires inodes { inodes ≤ MOST_INODES }
    ensures value { result ≡ data_at blocks inodes }
    ensures small { result < 4096 }
{
    table_at(blocks, inodes) + inodes / INODES_PER_BLOCK
}
