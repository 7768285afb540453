//! What is asked of the files of a tree in memory.
ghost use Rattle.std.specs.Prelude.{◌≡◌, IfOk};
ghost use Rattle.plain_tree.specs.Tree.Plain.{tree_of};
ghost use Rattle.nfs_spec.specs.Procedures.FsStat.{unused_numbers};

use crate::tree_files::PlainFiles;
use crate::tree_files::contents::{bytes_of, dirent_at, piece};
use crate::tree_files::heads::inode_attributes_of;
use crate::tree_files::next_names::next_name;
use crate::tree_files::nodes::file_at;
use crate::tree_files::space::{count_of, free_blocks};
use nfs_types::{Octets, Pieces};
use plain_tree::{PlainBody, PlainTree};
use procs_files::{Files, InodeAttributes, SlotDirent, SlotName};
use std::alloc::{AllocError, Global};

// How many numbers no file has.
fn unused_numbers(tree: &PlainTree) -> u32
    ensures { result ≡ unused_numbers (tree_of tree.now) }
{
    let all = (tree.inodes as u64).saturating_sub(1);
    all.saturating_sub(count_of(&tree.nodes)) as u32
}

impl Files for PlainFiles {
    ghost use Rattle.plain_tree.specs.Tree.Plain.{tree_of};
    ghost use Rattle.std.specs.Prelude.{◌≡◌};

    type Suspend = AllocError;

    ghost World = { Unit {0} };

    ghost Source = { Unit {0} };

    ghost source = { λ files. tt };

    ghost may_suspend = { λ source suspend. Unit {0} };

    ghost is_resumable = { λ suspend. Unit {0} };

    ghost was_read = { λ source number. Unit {0} };

    ghost stands = { λ files world tree. tree_of files.tree ≡ tree };

    ghost may_lack_memory = { λ source error suspend gives. tt };

    ghost memory_is_no_fault = { λ error suspend gives. tt };

    fn inodes(&self) -> u32 {
        self.tree.inodes
    }

    fn data_blocks(&self) -> u32 {
        self.tree.data_blocks
    }

    fn file(&self, number: u32) -> Result<Option<InodeAttributes>, AllocError> {
        match file_at(&self.tree, number) {
            Some(file) => Ok(Some(inode_attributes_of(file))),
            None => Ok(None),
        }
    }

    fn dirent(
        &self,
        directory: &InodeAttributes,
        name: &[u8],
    ) -> Result<Option<SlotDirent>, AllocError> {
        let Some(file) = file_at(&self.tree, directory.number) else {
            return Ok(None);
        };
        match dirent_at(&file.node.body, name) {
            Some(dirent) => Ok(Some(SlotDirent {
                number: dirent.number,
                slot: dirent.slot,
            })),
            None => Ok(None),
        }
    }

    fn next_name(
        &self,
        _alloc: Global,
        directory: &InodeAttributes,
        from: u64,
    ) -> Result<Option<SlotName>, AllocError> {
        match file_at(&self.tree, directory.number) {
            Some(file) => next_name(&file.node.body, from),
            None => Ok(None),
        }
    }

    fn bytes(
        &self,
        alloc: Global,
        file: &InodeAttributes,
        offset: u64,
        count: u32,
    ) -> Result<Pieces, AllocError> {
        match file_at(&self.tree, file.number) {
            Some(file) => Pieces::copied(alloc, piece(bytes_of(&file.node.body), offset, count)),
            None => Ok(Pieces::new(alloc)),
        }
    }

    fn target(&self, alloc: Global, link: &InodeAttributes) -> Result<Octets, AllocError> {
        let Some(file) = file_at(&self.tree, link.number) else {
            return Ok(Octets::new(Vec::new(alloc)));
        };
        match &file.node.body {
            PlainBody::Link { target } => target.clone(),
            PlainBody::Regular { .. } | PlainBody::Directory { .. } => Ok(Octets::new(Vec::new(
                alloc,
            ))),
        }
    }

    fn has_free_blocks(&self, blocks: u32) -> Result<bool, AllocError> {
        Ok(blocks <= free_blocks(&self.tree))
    }

    fn free_blocks(&self) -> Result<u32, AllocError> {
        Ok(free_blocks(&self.tree))
    }

    fn free_numbers(&self) -> Result<u32, AllocError> {
        Ok(unused_numbers(&self.tree))
    }
}
