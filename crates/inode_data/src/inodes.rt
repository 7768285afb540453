//! A file's inode, written behind its blocks.
ghost use Rattle.std.specs.Prelude.{ℕ, ◌≡◌, ◌+◌, ◌<◌, ◌≤◌, length, set, true, IfErr, OnOk};
ghost use Rattle.base.specs.declared.TheConstants.{BLOCK_BYTES, DIRECT_INDEXES};
ghost use Rattle.disk.specs.Crash.{Image};
ghost use Rattle.layout.specs.Parts.{with_bytes, with_inode};
ghost use Rattle.layout.specs.Places.{is_data};
ghost use Rattle.inode.specs.Over.{IsResumable, MaySuspend};
ghost use Rattle.inode.specs.WriteSets.WriteSetContents.{Shows, image_of, dirty_count};
ghost use Rattle.inode_data.specs.Filling.{mapping};
ghost use Rattle.inode_data.specs.CleanCounts.{clean_count};

use crate::blocks::put_block;
use inode::{Suspend, WriteSet};
use layout::Inode;
use std::alloc::Global;

/// The inode with another size.
pub fn sized(inode: &Inode, size: u64) -> Inode
    ensures { result ≡ mapping inode.now size inode.now.direct inode.now.indirect inode.now.double }
{
    let mut new = *inode;
    new.size = size;
    new
}

/// The inode with another size, which names a block at an index.
pub fn naming(inode: &Inode, size: u64, index: usize, number: u32) -> Inode
    requires { index < DIRECT_INDEXES }
    ensures { result ≡ mapping inode.now size (set inode.now.direct index number) inode.now.indirect
        inode.now.double }
{
    let mut new = *inode;
    let mut direct = inode.direct;
    direct[index] = number;
    new.size = size;
    new.direct = direct;
    new
}

/// The inode with another size and another indirect block.
pub fn with_indirect_block(inode: &Inode, size: u64, indirect: u32) -> Inode
    ensures { result ≡ mapping inode.now size inode.now.direct indirect inode.now.double }
{
    let mut new = *inode;
    new.size = size;
    new.indirect = indirect;
    new
}

/// The inode with another size and another double indirect block.
pub fn with_double_block(inode: &Inode, size: u64, double: u32) -> Inode
    ensures { result ≡ mapping inode.now size inode.now.direct inode.now.indirect double }
{
    let mut new = *inode;
    new.size = size;
    new.double = double;
    new
}

/// Writes a block of a file, and its inode.
pub fn store(
    alloc: Global,
    write_set: &mut WriteSet,
    number: u32,
    block: u32,
    bytes: Vec<u8>,
    inode: &Inode,
) -> Result<(), Suspend>
    requires lies { is_data write_set.old.there.geometry block ≡ true }
    requires len { length bytes.items ≡ BLOCK_BYTES }
    ensures shows { OnOk result ((image : Image) → Shows write_set.old image
        → Shows write_set.new (with_inode write_set.old.there.geometry (with_bytes image block 0 bytes.items) number
        inode.now)) }
    ensures image { OnOk result ((blocks : Image) → image_of blocks write_set.new
        ≡ with_inode write_set.old.there.geometry (with_bytes (image_of blocks write_set.old) block 0 bytes.items) number
        inode.now) }
    ensures seen { write_set.new.seen ≡ write_set.old.seen }
    ensures geometry { write_set.new.there.geometry ≡ write_set.old.there.geometry }
    ensures dirty_count { dirty_count write_set.new ≤ dirty_count write_set.old + 2 }
    // The inode counts once, however often it is put, and what was written stays written.
    ensures once { (indirect_block double : ℕ) → dirty_count write_set.new + clean_count write_set.new number indirect_block double
        ≤ dirty_count write_set.old + clean_count write_set.old number indirect_block double + 1 }
    ensures err { IfErr result (λ suspend. MaySuspend write_set.old.seen suspend) }
    ensures resumable { IfErr result (λ suspend. number < write_set.old.there.geometry.inodes → IsResumable suspend) }
{
    match put_block(write_set, block, bytes) {
        Ok(()) => write_set.put_inode(alloc, number, inode),
        Err(suspend) => Err(suspend),
    }
}

/// Writes an indirect block, a block that it names, and the inode.
pub fn store_indirect(
    alloc: Global,
    write_set: &mut WriteSet,
    number: u32,
    indirect_block: u32,
    numbers: Vec<u8>,
    block: u32,
    bytes: Vec<u8>,
    inode: &Inode,
) -> Result<(), Suspend>
    requires indirect_block { is_data write_set.old.there.geometry indirect_block ≡ true }
    requires lies { is_data write_set.old.there.geometry block ≡ true }
    requires numbers { length numbers.items ≡ BLOCK_BYTES }
    requires len { length bytes.items ≡ BLOCK_BYTES }
    ensures shows { OnOk result ((image : Image) → Shows write_set.old image
        → Shows write_set.new (with_inode write_set.old.there.geometry
        (with_bytes (with_bytes image indirect_block 0 numbers.items) block 0 bytes.items) number inode.now)) }
    ensures image { OnOk result ((blocks : Image) → image_of blocks write_set.new
        ≡ with_inode write_set.old.there.geometry
        (with_bytes (with_bytes (image_of blocks write_set.old) indirect_block 0 numbers.items) block 0 bytes.items) number
        inode.now) }
    ensures seen { write_set.new.seen ≡ write_set.old.seen }
    ensures geometry { write_set.new.there.geometry ≡ write_set.old.there.geometry }
    ensures dirty_count { dirty_count write_set.new ≤ dirty_count write_set.old + 3 }
    // The indirect block and the inode count once.
    ensures once { (double : ℕ) → dirty_count write_set.new + clean_count write_set.new number indirect_block double
        ≤ dirty_count write_set.old + clean_count write_set.old number indirect_block double + 1 }
    // Or else a block that is an inner one counts each time.
    ensures twice { (indirect double : ℕ) → dirty_count write_set.new + clean_count write_set.new number indirect double
        ≤ dirty_count write_set.old + clean_count write_set.old number indirect double + 2 }
    ensures err { IfErr result (λ suspend. MaySuspend write_set.old.seen suspend) }
    ensures resumable { IfErr result (λ suspend. number < write_set.old.there.geometry.inodes → IsResumable suspend) }
{
    match put_block(write_set, indirect_block, numbers) {
        Ok(()) => store(alloc, write_set, number, block, bytes, inode),
        Err(suspend) => Err(suspend),
    }
}

/// Writes a double indirect block, an inner block that it names, a block that this names, and the inode.
pub fn store_double(
    alloc: Global,
    write_set: &mut WriteSet,
    number: u32,
    double: u32,
    inners: Vec<u8>,
    inner: u32,
    numbers: Vec<u8>,
    block: u32,
    bytes: Vec<u8>,
    inode: &Inode,
) -> Result<(), Suspend>
    requires double { is_data write_set.old.there.geometry double ≡ true }
    requires inner { is_data write_set.old.there.geometry inner ≡ true }
    requires lies { is_data write_set.old.there.geometry block ≡ true }
    requires inners { length inners.items ≡ BLOCK_BYTES }
    requires numbers { length numbers.items ≡ BLOCK_BYTES }
    requires len { length bytes.items ≡ BLOCK_BYTES }
    ensures shows { OnOk result ((image : Image) → Shows write_set.old image
        → Shows write_set.new (with_inode write_set.old.there.geometry
        (with_bytes (with_bytes (with_bytes image double 0 inners.items) inner 0 numbers.items) block 0 bytes.items)
        number inode.now)) }
    ensures image { OnOk result ((blocks : Image) → image_of blocks write_set.new
        ≡ with_inode write_set.old.there.geometry
        (with_bytes (with_bytes (with_bytes (image_of blocks write_set.old) double 0 inners.items) inner 0 numbers.items)
        block 0 bytes.items) number inode.now) }
    ensures seen { write_set.new.seen ≡ write_set.old.seen }
    ensures geometry { write_set.new.there.geometry ≡ write_set.old.there.geometry }
    ensures dirty_count { dirty_count write_set.new ≤ dirty_count write_set.old + 4 }
    // The double indirect block and the inode count once.
    ensures once { (indirect : ℕ) → dirty_count write_set.new + clean_count write_set.new number indirect double
        ≤ dirty_count write_set.old + clean_count write_set.old number indirect double + 2 }
    ensures err { IfErr result (λ suspend. MaySuspend write_set.old.seen suspend) }
    ensures resumable { IfErr result (λ suspend. number < write_set.old.there.geometry.inodes → IsResumable suspend) }
{
    match put_block(write_set, double, inners) {
        Ok(()) => store_indirect(
            alloc, write_set, number, inner, numbers, block, bytes, inode,
        ),
        Err(suspend) => Err(suspend),
    }
}
