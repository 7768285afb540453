//! What is done to the files of a tree in memory.
ghost use Rattle.std.specs.Prelude.{◌≡◌, ◌-◌, ◌+◌, ◌<◌, ◌≤◌, ℕ, List, length, IfOk, OnOk};
ghost use Rattle.base.specs.declared.TheConstants.{LARGEST_FILE};
ghost use Rattle.nfs_spec.specs.Model.Cost.{cost};
ghost use Rattle.nfs_spec.specs.Procedures.Write.{with_text};
ghost use Rattle.std.specs.Option.{option_map};
ghost use Rattle.nfs_spec.specs.Model.Node.{Node};
ghost use Rattle.nfs_spec.specs.Model.Tree.{node_at, with_node};
ghost use Rattle.plain_tree.specs.Tree.Plain.{body_of, tree_of};
ghost use Rattle.procs_files.specs.Heads.{node_of};

use crate::tree_files::PlainFiles;
use crate::tree_files::contents::{add_dirent, has_names, remove_dirent};
use crate::tree_files::heads::{first_body, headed, set_parent, with_body};
use crate::tree_files::nodes::{file_at, with_node, without_node};
use crate::tree_files::numbers::least_unused;
use crate::tree_files::overwrites::{overwritten, with_touched};
use crate::tree_files::slots::least_free_slot;
use nfs_types::Octets;
use plain_tree::{PlainBody, set_length};
use procs_files::{InodeAttributes, SlotDirent, WritableFiles};
use std::alloc::{AllocError, Global};

// What so many bytes that are written add to the blocks that a file uses.
fn unmapped(body: &PlainBody, offset: u64, count: usize) -> Result<u32, AllocError>
    requires some { 0 < count }
    requires small { offset + count ≤ LARGEST_FILE }
    ensures { IfOk result (λ blocks. (text : List ℕ) → length text ≡ count
        → blocks ≡ cost (with_text offset text (body_of body.now)) - cost (body_of body.now)) }
{
    let PlainBody::Regular { mapped, .. } = body else {
        return Ok(0);
    };
    let all = with_touched(mapped, offset, count)?;
    Ok(all.cost().saturating_sub(mapped.cost()) as u32)
}

// Writes the bytes of a regular file.
fn write_body(
    alloc: Global,
    body: &mut PlainBody,
    offset: u64,
    text: &[u8],
) -> Result<(), AllocError>
    requires some { 0 < length text.now }
    requires small { offset + length text.now ≤ LARGEST_FILE }
    ensures { OnOk result (body_of body.new ≡ with_text offset text.now (body_of body.old)) }
{
    let PlainBody::Regular { bytes, mapped } = body else {
        return Ok(());
    };
    let all = with_touched(mapped, offset, text.len())?;
    *bytes = overwritten(alloc, bytes, offset as usize, text)?;
    *mapped = all;
    Ok(())
}

impl PlainFiles {
    // What is in the file of a number.
    fn body_at(&self, number: u32) -> Result<Option<PlainBody>, AllocError>
        ensures { IfOk result (λ found. option_map body_of found
            ≡ option_map (λ (node : Node). node.body) (node_at (tree_of self.now.tree) number)) }
    {
        match file_at(&self.tree, number) {
            Some(file) => Ok(Some(file.node.body.clone()?)),
            None => Ok(None),
        }
    }

    // The file of this head has this in it.
    fn put(&mut self, inode_attributes: &InodeAttributes, body: PlainBody) -> Result<(), AllocError>
        ensures { OnOk result (tree_of self.new.tree
            ≡ with_node (tree_of self.old.tree) inode_attributes.now.number (node_of inode_attributes.now (body_of body))) }
    {
        let old = self.tree.clone()?;
        self.tree = with_node(
            old,
            inode_attributes.number,
            with_body(inode_attributes, body),
        )?;
        Ok(())
    }
}

impl WritableFiles for PlainFiles {
    ghost dirty_count = { λ files. 0 };

    fn free_slot(&self, directory: &InodeAttributes) -> Result<Option<u32>, AllocError> {
        match file_at(&self.tree, directory.number) {
            Some(file) => Ok(least_free_slot(&file.node.body)),
            None => Ok(None),
        }
    }

    fn is_empty(&self, file: &InodeAttributes) -> Result<bool, AllocError> {
        match file_at(&self.tree, file.number) {
            Some(file) => Ok(!has_names(&file.node.body)),
            None => Ok(true),
        }
    }

    fn unmapped(
        &self,
        file: &InodeAttributes,
        offset: u64,
        count: usize,
    ) -> Result<u32, AllocError> {
        match file_at(&self.tree, file.number) {
            Some(file) => unmapped(&file.node.body, offset, count),
            None => Ok(0),
        }
    }

    fn new_number(&self) -> Result<Option<u32>, AllocError> {
        Ok(least_unused(&self.tree))
    }

    fn set(&mut self, inode_attributes: &InodeAttributes) -> Result<(), AllocError> {
        let Some(mut body) = self.body_at(inode_attributes.number)? else {
            return Ok(());
        };
        set_parent(&mut body, inode_attributes.parent);
        self.put(inode_attributes, body)
    }

    fn depart(
        &mut self,
        inode_attributes: &InodeAttributes,
        name: &[u8],
    ) -> Result<(), AllocError> {
        let Some(mut body) = self.body_at(inode_attributes.number)? else {
            return Ok(());
        };
        remove_dirent(&mut body, name);
        self.put(inode_attributes, body)
    }

    fn enter(
        &mut self,
        alloc: Global,
        inode_attributes: &InodeAttributes,
        name: &[u8],
        dirent: SlotDirent,
    ) -> Result<InodeAttributes, AllocError> {
        let Some(mut body) = self.body_at(inode_attributes.number)? else {
            return Ok(*inode_attributes);
        };
        let name = Octets::copied(alloc, name)?;
        add_dirent(&mut body, name, dirent.number, dirent.slot)?;
        let next = headed(inode_attributes, &body);
        self.put(inode_attributes, body)?;
        Ok(next)
    }

    fn write(
        &mut self,
        alloc: Global,
        inode_attributes: &InodeAttributes,
        offset: u64,
        text: &[u8],
    ) -> Result<InodeAttributes, AllocError> {
        let Some(mut body) = self.body_at(inode_attributes.number)? else {
            return Ok(*inode_attributes);
        };
        write_body(alloc, &mut body, offset, text)?;
        let next = headed(inode_attributes, &body);
        self.put(inode_attributes, body)?;
        Ok(next)
    }

    fn resize(
        &mut self,
        inode_attributes: &InodeAttributes,
        size: u64,
    ) -> Result<InodeAttributes, AllocError> {
        let Some(mut body) = self.body_at(inode_attributes.number)? else {
            return Ok(*inode_attributes);
        };
        set_length(&mut body, &Some(size))?;
        let next = headed(inode_attributes, &body);
        self.put(inode_attributes, body)?;
        Ok(next)
    }

    fn make(
        &mut self,
        alloc: Global,
        inode_attributes: &InodeAttributes,
        target: &[u8],
    ) -> Result<(), AllocError> {
        let body = first_body(alloc, inode_attributes, target)?;
        self.put(inode_attributes, body)
    }

    fn remove(&mut self, number: u32) -> Result<(), AllocError> {
        let old = self.tree.clone()?;
        self.tree = without_node(old, number);
        Ok(())
    }
}
