//! The table of inodes.
ghost use Rattle.std.specs.Prelude.{◌≡◌, ◌≤◌, ◌<◌, ◌⊎◌, ℕ, alloc_error, IfOk, IfErr, OnOk, IsErrOf, length};
ghost use Rattle.base.specs.declared.TheConstants.{BLOCK_BYTES, INODES_PER_BLOCK};
ghost use Rattle.circ.specs.Log.Recovery.{HasOnlyRead, IsCertain, image_of};
ghost use Rattle.image_read.specs.LoggedImage.WithOverlay.{with_overlay};
ghost use Rattle.image_read.specs.Parts.Table.{ArePushed, CountsPart, HasRefusedInode, HasRefusedInodeIn, IsTable};

use crate::logged_image::Overlay;
use crate::parts::PartFault;
use base::{INODE_BYTES, INODES_PER_BLOCK};
use disk::{Block, BlockNo, CrashDisk};
use layout::{Geometry, Inode};
use std::alloc::{AllocError, Global};

/// The inodes of an image by their numbers, None where one is free.
#[tactic(auto, using(circ::proofs::LogLemmas::OnlyRead::reads_then, circ::proofs::LogLemmas::OnlyRead::no_read))]
pub fn read_table<D: CrashDisk>(
    alloc: Global,
    disk: &mut D,
    overlay: &Overlay,
    geometry: &Geometry,
) -> Result<Vec<Option<Inode>>, PartFault>
    requires { geometry.now.blocks ≤ (D.device disk.old).size }
    ensures reads { HasOnlyRead (D.device disk.old) (D.device disk.new) }
    ensures failure { CountsPart (D.device disk.old) (D.device disk.new) result }
    ensures model { D.keeps_model disk.new → D.keeps_model disk.old }
    ensures len { IfOk result (λ table. length table.items ≡ geometry.now.inodes) }
    ensures table { D.keeps_model disk.new → IsCertain (D.device disk.old)
        → IfOk result (λ table. IsTable geometry.now (with_overlay overlay.now (image_of (D.device disk.old)))
        geometry.now.inodes table.items) }
    ensures refused { D.keeps_model disk.new → IsCertain (D.device disk.old)
        → IsErrOf result PartFault.Range
        → HasRefusedInode geometry.now (with_overlay overlay.now (image_of (D.device disk.old))) }
{
    let mut table = Vec::with_capacity(alloc, geometry.inodes as usize)?;
    let mut block = Block::zeros(alloc)?;
    'indexes: for index in 0..geometry.inodes / INODES_PER_BLOCK {
        let number = BlockNo(geometry.inode_table().0 + index);
        overlay.read(disk, number, &mut block)?;
        push_inodes(geometry, block.as_slice(), &mut table)?;
    }
    Ok(table)
}

// Adds the inodes in a block of the table.
fn push_inodes(
    geometry: &Geometry,
    block: &[u8],
    table: &mut Vec<Option<Inode>>,
) -> Result<(), PartFault>
    requires { length block.now ≡ BLOCK_BYTES }
    ensures pushed { OnOk result (ArePushed geometry.now block.now INODES_PER_BLOCK table.old.items table.new.items) }
    ensures refused { IfErr result (λ fault. (fault ≡ PartFault.NoMemory alloc_error)
        ⊎ ((fault ≡ PartFault.Range) × HasRefusedInodeIn geometry.now block.now)) }
{
    'slots: for slot in 0..INODES_PER_BLOCK as usize {
        let offset = INODE_BYTES * slot;
        let inode = Inode::read(geometry, &block[offset..offset + INODE_BYTES])?;
        table.push(inode).map_err(AllocError::from)?;
    }
    Ok(())
}
