//! The blocks of an image that was just made.
ghost use Rattle.std.specs.Prelude.{◌≡◌, ◌+◌, ◌*◌, ◌<◌, ◌≤◌, ◌^◌, length, replicate, IfOk};
ghost use Rattle.base.specs.declared.TheConstants.{BITS_PER_BLOCK, BLOCK_BYTES};
ghost use Rattle.layout.specs.Fresh.{root_inode, root_block, bit, byte_of, bitmap_block, is_outside, fresh};
ghost use Rattle.layout.specs.SuperForm.{super_bytes};

use crate::{Geometry, Inode, InodeKind, Super};
use base::{
    BITS_PER_BLOCK, BLOCK_BYTES, DIRECT_INDEXES, FIRST_HOME_BLOCK, INODE_BYTES, ROOT, ROOT_MODE,
    SUPER_BLOCK,
};
use disk::Block;
use nfs_types::{Moment, Stamp};
use std::alloc::{AllocError, Global};

/// An image that was just made: the root alone, and an empty log.
#[derive(Drop)]
pub struct FreshImage {
    geometry: Geometry,
    made: Moment,
    super_block: Vec<u8>,
    root: Vec<u8>,
    pub ghost super_block_spelled: { super_block.items
        ≡ super_bytes (record { geometry = geometry; boot = 0 }) },
    pub ghost root_spelled: { root.items ≡ root_block made },
    pub ghost super_block_len: { length super_block.items ≡ BLOCK_BYTES },
    pub ghost root_len: { length root.items ≡ BLOCK_BYTES },
}

impl FreshImage {
    /// The image of this geometry whose root was made at the moment.
    pub fn new(alloc: Global, geometry: Geometry, made: Moment) -> Result<FreshImage, AllocError>
        ensures geometry { IfOk result (λ image. image.geometry ≡ geometry) }
        ensures made { IfOk result (λ image. image.made ≡ made) }
    {
        let super_block = Super { geometry, boot: 0 }.write(alloc)?;
        let root = root_block(alloc, made)?;
        Ok(FreshImage {
            geometry,
            made,
            super_block,
            root,
        })
    }

    /// Makes a block what the image has at this number.
    #[tactic(auto, unfolding(crate::specs::Fresh::fresh))]
    pub fn put(&self, number: u32, block: &mut Block)
        requires { number < self.now.geometry.blocks }
        ensures { block.new ≡ fresh self.now.geometry self.now.made number }
    {
        let geometry = &self.geometry;
        let inode_bitmap = geometry.inode_bitmap().0;
        let table = geometry.inode_table().0;
        if number == SUPER_BLOCK {
            put_all(block, &self.super_block);
        } else if number < FIRST_HOME_BLOCK {
            put_zeros(block);
        } else if number < inode_bitmap {
            let part = number - FIRST_HOME_BLOCK;
            put_bitmap(block, part, geometry.data().0, geometry.blocks);
        } else if number < table {
            put_bitmap(block, number - inode_bitmap, ROOT + 1, geometry.inodes);
        } else if number == table {
            put_all(block, &self.root);
        } else {
            put_zeros(block);
        }
    }
}

// Makes the block's bytes these.
fn put_all(block: &mut Block, bytes: &[u8])
    requires { length bytes.now ≡ BLOCK_BYTES }
    ensures { block.new ≡ bytes.now }
{
    block.put(0, bytes);
}

// Makes the block's bytes zeros.
fn put_zeros(block: &mut Block)
    ensures bytes { block.new ≡ replicate BLOCK_BYTES 0 }
    ensures len { length block.new ≡ BLOCK_BYTES }
{
    put_all(block, &[0; BLOCK_BYTES]);
}

// The root: an empty directory that is its own parent, made at the moment by no transaction.
fn root_inode(made: Moment) -> Inode
    ensures { result ≡ root_inode made }
{
    Inode {
        kind: InodeKind::Directory,
        mode: ROOT_MODE,
        uid: 0,
        gid: 0,
        nlink: 2,
        size: 0,
        atime: made,
        mtime: made,
        ctime: made,
        stamp: Stamp {
            boot: 0,
            transaction: 0,
        },
        parent: ROOT,
        verifier: None,
        direct: [0; DIRECT_INDEXES],
        indirect: 0,
        double: 0,
    }
}

// The block of the table in which the root lies: inode 0 is free, then comes the root, and all others are
// free.
fn root_block(alloc: Global, made: Moment) -> Result<Vec<u8>, AllocError>
    ensures bytes { IfOk result (λ bytes. bytes.items ≡ root_block made) }
    ensures len { IfOk result (λ bytes. length bytes.items ≡ BLOCK_BYTES) }
{
    let root = root_inode(made).write(alloc)?;
    let mut bytes = Vec::with_capacity(alloc, BLOCK_BYTES)?;
    bytes.resize(INODE_BYTES, 0)?;
    bytes.extend_from_slice(&root)?;
    bytes.resize(BLOCK_BYTES, 0)?;
    Ok(bytes)
}

// Makes a block the part of this number of a bitmap in which the numbers below one and those from another on
// are marked.
fn put_bitmap(block: &mut Block, part: u32, below: u32, past: u32)
    ensures { block.new ≡ bitmap_block (is_outside below past) (BITS_PER_BLOCK * part) }
{
    let first = BITS_PER_BLOCK as u64 * part as u64;
    put_zeros(block);
    'bytes: for index in 0..BLOCK_BYTES {
        let byte = byte_of(first + 8 * index as u64, below as u64, past as u64);
        block.put(index, &[byte]);
    }
}

// Eight bits, from that of a number on, as a byte: the least stands for the first.
fn byte_of(number: u64, below: u64, past: u64) -> u8
    requires { number + 8 < 2 ^ 64 }
    ensures { result ≡ byte_of (is_outside below past) number }
{
    bit(number, below, past)
        + 2 * bit(number + 1, below, past)
        + 4 * bit(number + 2, below, past)
        + 8 * bit(number + 3, below, past)
        + 16 * bit(number + 4, below, past)
        + 32 * bit(number + 5, below, past)
        + 64 * bit(number + 6, below, past)
        + 128 * bit(number + 7, below, past)
}

// The bit of a number: whether it lies outside.
fn bit(number: u64, below: u64, past: u64) -> u8
    ensures value { result ≡ bit (is_outside below past number) }
    ensures small { result ≤ 1 }
{
    if number < below || number >= past {
        1
    } else {
        0
    }
}
