//! Toy changes: they were read and write as they are told.
ghost use Rattle.std.specs.Prelude.{◌≡◌, ◌≤◌, length};
ghost use Rattle.base.specs.declared.TheConstants.{CHANGED_BLOCKS};
ghost use Rattle.txn.specs.Group.{blocks_of};
ghost use Rattle.tests_txn.specs.declared.tests.fake_changes.TheConstants.{BLOCKS};

use base::{CHANGED_BLOCKS, FIRST_HOME_BLOCK};
use disk::BlockNo;
use objects::{Addr, SharedBytes};
use std::alloc::{AllocError, Global};
use txn::{Change, Object};

// The blocks and inodes of the image here: more blocks than twice as many as stay in memory that nobody needs.
pub const BLOCKS: u32 = 34_000;

pub const INODES: u32 = 64;

// A change that was read and writes as it is told.
#[derive(Drop)]
pub struct Toy {
    read: Vec<Object>,
    written: Vec<Object>,
    inodes: u32,
    ghost few: { length (blocks_of written.items) ≤ CHANGED_BLOCKS },
}

impl Change for Toy {
    ghost planned = { λ toy. record {
      read = toy.read.items;
      written = toy.written.items;
      blocks = BLOCKS;
      inodes = toy.inodes;
    } };

    type Answer = ();

    ghost answers = { λ toy. tt };

    // It is planned for blocks alone.
    ghost is_plan = { λ blocks inodes answer read written. blocks ≡ BLOCKS };

    // It is made to any image.
    ghost are_counts = { λ blocks inodes. Unit {0} };

    fn read(&self) -> &[Object] {
        &self.read
    }

    fn written(&self) -> &[Object] {
        &self.written
    }

    fn blocks(&self) -> u32 {
        BLOCKS
    }

    fn inodes(&self) -> u32 {
        self.inodes
    }

    fn is_planned(&self) {}
}

// A change that read these objects, each with its byte, and writes these so. None where memory is refused, or where it would
// write more than a change may.
pub fn change_of(alloc: Global, read: &[(At, u8)], written: &[(At, u8)]) -> Option<Toy> {
    let read = objects(alloc, read).ok()?;
    let written = objects(alloc, written).ok()?;
    toy_of(read, written)
}

// A change of these objects, where it writes no more than a change may.
fn toy_of(read: Vec<Object>, written: Vec<Object>) -> Option<Toy> {
    if written.len() <= CHANGED_BLOCKS {
        return Some(Toy {
            read,
            written,
            inodes: INODES,
        });
    }
    None
}

fn objects(alloc: Global, test_bytes: &[(At, u8)]) -> Result<Vec<Object>, AllocError> {
    let mut objects = Vec::new(alloc);
    for (at, byte) in test_bytes {
        objects.push(object(alloc, at.addr(), *byte)?)?;
    }
    Ok(objects)
}

fn object(alloc: Global, addr: Addr, byte: u8) -> Result<Object, AllocError> {
    let bytes = SharedBytes::new(vec![in alloc; byte; addr.len]?)?;
    Ok(Object::new(addr, bytes))
}

// A home block, counted from the first one.
pub fn home(index: u32) -> BlockNo {
    BlockNo(FIRST_HOME_BLOCK.saturating_add(index))
}

// Where an object lies.
#[derive(Clone, Copy)]
pub enum At {
    // The 8 bytes of a home block, counted from the first one, from an offset on.
    Eight(u32, u8),
    // A home block, counted so.
    Whole(u32),
    // A block of any number.
    Numbered(u32),
}

impl At {
    // Its address.
    pub fn addr(self) -> Addr {
        match self {
            At::Eight(index, offset) => Addr {
                block: home(index),
                offset: usize::from(offset),
                len: 8,
            },
            At::Whole(index) => Addr::whole(home(index)),
            At::Numbered(block) => Addr::whole(BlockNo(block)),
        }
    }
}
