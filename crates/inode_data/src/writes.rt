//! Bytes that are written to a regular file, piece by piece.
ghost use Rattle.std.specs.Prelude.{ℕ, ◌≡◌, ◌+◌, ◌-◌, ◌%◌, ◌<◌, ◌≤◌, List, length, true, Some, IfErr, IfOk};
ghost use Rattle.base.specs.declared.TheConstants.{BLOCK_BYTES, LARGEST_FILE, TRANSFER_BYTES};
ghost use Rattle.disk.specs.Crash.{Image};
ghost use Rattle.nfs_spec.specs.Model.Cost.{cost};
ghost use Rattle.nfs_spec.specs.Model.Node.{Node};
ghost use Rattle.nfs_spec.specs.Model.Tree.{Tree, free, node_at};
ghost use Rattle.nfs_spec.specs.Procedures.Write.{with_text};
ghost use Rattle.inode.specs.Over.{IsResumable, MaySuspend};
ghost use Rattle.inode.specs.WriteSets.WriteSetContents.{IsWriteSet, dirty_count};
ghost use Rattle.inode_data.specs.Written.{NamesRegular, WritesText};

use crate::pieces::write_piece;
use base::BLOCK_BYTES;
use inode::{Suspend, WriteSet, held};
use layout::{Inode, InodeKind};
use std::alloc::Global;

// How many of so many bytes lie in one block from a place on.
fn piece_len(at: u64, rest: usize) -> usize
    requires { 0 < rest }
    ensures some { 0 < result }
    ensures within { at % BLOCK_BYTES + result ≤ BLOCK_BYTES }
    ensures most { result ≤ rest }
    ensures whole { result < rest → (at + result) % BLOCK_BYTES ≡ 0 }
{
    let bytes_left = BLOCK_BYTES - (at % BLOCK_BYTES as u64) as usize;
    if rest < bytes_left { rest } else { bytes_left }
}

// Writes bytes to the regular file of this inode, piece by piece. It isn't done (false) where there is no room for
// what they take.
fn write_all(
    alloc: Global,
    write_set: &mut WriteSet,
    number: u32,
    inode: &Inode,
    offset: u64,
    text: &[u8],
) -> Result<bool, Suspend>
    requires some { 0 < length text.now }
    requires small { offset + length text.now ≤ LARGEST_FILE }
    ensures ok { IfOk result (λ done. done ≡ true → (blocks : Image) (tree : Tree) → IsWriteSet write_set.old blocks tree
        → NamesRegular write_set.old blocks number inode.now
        → WritesText write_set.new blocks tree number offset text.now) }
    ensures has_space { IfOk result (λ done. (blocks : Image) (tree : Tree) (node : Node)
        → IsWriteSet write_set.old blocks tree → NamesRegular write_set.old blocks number inode.now
        → node_at tree number ≡ Some node
        → cost (with_text offset text.now node.body) - cost node.body ≤ free tree → done ≡ true) }
    ensures seen { write_set.new.seen ≡ write_set.old.seen }
    ensures dirty_count { length text.now ≤ TRANSFER_BYTES → dirty_count write_set.new ≤ dirty_count write_set.old + 70 }
    ensures err { IfErr result (λ suspend. MaySuspend write_set.old.seen suspend) }
    ensures resumable { IfErr result (λ suspend. (blocks : Image) (tree : Tree) → IsWriteSet write_set.old blocks tree
        → NamesRegular write_set.old blocks number inode.now → IsResumable suspend) }
{
    let mut file = *inode;
    let first = piece_len(offset, text.len());
    match write_piece(alloc, write_set, number, &mut file, offset, &text[..first]) {
        Ok(true) => {}
        Ok(false) => return Ok(false),
        Err(suspend) => return Err(suspend),
    }
    let mut done = first;
    'pieces: while done < text.len() {
        let at = offset + done as u64;
        let len = piece_len(at, text.len() - done);
        match write_piece(
            alloc,
            write_set,
            number,
            &mut file,
            at,
            &text[done..done + len],
        ) {
            Ok(true) => {}
            Ok(false) => return Ok(false),
            Err(suspend) => return Err(suspend),
        }
        done += len;
    }
    Ok(true)
}

/// Writes bytes to a regular file; to another nothing is done. It isn't done (false) where there is no room for
/// what they take, and where there is no file.
pub fn write(
    alloc: Global,
    write_set: &mut WriteSet,
    number: u32,
    offset: u64,
    text: &[u8],
) -> Result<bool, Suspend>
    requires some { 0 < length text.now }
    requires small { offset + length text.now ≤ LARGEST_FILE }
    ensures ok { IfOk result (λ done. done ≡ true → (blocks : Image) (tree : Tree) → IsWriteSet write_set.old blocks tree
        → WritesText write_set.new blocks tree number offset text.now) }
    ensures has_space { IfOk result (λ done. (blocks : Image) (tree : Tree) (node : Node)
        → IsWriteSet write_set.old blocks tree → node_at tree number ≡ Some node
        → cost (with_text offset text.now node.body) - cost node.body ≤ free tree → done ≡ true) }
    ensures seen { write_set.new.seen ≡ write_set.old.seen }
    ensures dirty_count { length text.now ≤ TRANSFER_BYTES → dirty_count write_set.new ≤ dirty_count write_set.old + 70 }
    ensures err { IfErr result (λ suspend. MaySuspend write_set.old.seen suspend) }
    ensures resumable { IfErr result (λ suspend. (blocks : Image) (tree : Tree) → IsWriteSet write_set.old blocks tree
        → IsResumable suspend) }
{
    match held(write_set.there(), number) {
        Ok(Some(inode)) => match inode.kind {
            InodeKind::Regular => write_all(alloc, write_set, number, &inode, offset, text),
            InodeKind::Directory => Ok(true),
            InodeKind::Link => Ok(true),
        },
        Ok(None) => Ok(false),
        Err(suspend) => Err(suspend),
    }
}
