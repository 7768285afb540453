//! The objects of an image.
ghost use Rattle.std.specs.Prelude.{ℕ, ◌≡◌, IfNone, IfSome};
ghost use Rattle.layout_records.specs.OnGrid.{IsInodeAt, is_on_grid};

use base::{BLOCK_BYTES, FIRST_HOME_BLOCK, INODE_BYTES, INODES_PER_BLOCK};
use layout::{Geometry, PIECE_BYTES};
use objects::Addr;

/// Whether an address is that of an inode, of an eighth of a block of a bitmap, or of a whole data block.
pub fn is_on_grid(geometry: &Geometry, addr: Addr) -> bool
    ensures { result ≡ is_on_grid geometry.now addr }
{
    let block = addr.block.0;
    if addr.len == BLOCK_BYTES {
        geometry.is_data(block)
    } else if addr.len == PIECE_BYTES {
        FIRST_HOME_BLOCK <= block
            && block < geometry.inode_table().0
            && addr.offset % PIECE_BYTES == 0
    } else {
        addr.len == INODE_BYTES
            && geometry.inode_table().0 <= block
            && block < geometry.data().0
            && addr.offset % INODE_BYTES == 0
    }
}

/// The number of the inode that lies at an address, if one does.
pub fn inode_number(geometry: &Geometry, addr: Addr) -> Option<u32>
    ensures some { IfSome result (λ number. IsInodeAt geometry.now number addr) }
    ensures none { IfNone result ((number : ℕ) → IsInodeAt geometry.now number addr → ⊥) }
{
    let table = geometry.inode_table().0;
    if addr.len != INODE_BYTES || addr.block.0 < table || addr.block.0 >= geometry.data().0 {
        return None;
    }
    if addr.offset % INODE_BYTES != 0 {
        return None;
    }
    Some((addr.block.0 - table) * INODES_PER_BLOCK + (addr.offset / INODE_BYTES) as u32)
}
