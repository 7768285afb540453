//! All files as a plain list.
ghost use Rattle.std.specs.Prelude.{◌≡◌, ◌<◌, IfOk, nat_eq, position};
ghost use Rattle.nfs_types.specs.Handle.{handle_bytes};
ghost use Rattle.nfs_spec.specs.Model.Find.{find_file};
ghost use Rattle.nfs_spec.specs.Model.Format.{format_tree};
ghost use Rattle.plain_tree.specs.Tree.Plain.{Locates, numbered, tree_of};

use crate::tree::{PlainBody, PlainNames, PlainNode};
use base::{ROOT, ROOT_MODE};
use nfs_types::{Handle, Moment, Stamp, Status};
use std::alloc::{AllocError, Global};

/// A file and its number.
#[derive(Drop)]
pub struct NumberedNode {
    pub number: u32,
    pub node: PlainNode,
}

/// The files of a server, in any order.
#[derive(Drop)]
pub struct PlainTree {
    pub data_blocks: u32,
    pub inodes: u32,
    pub nodes: Vec<NumberedNode>,
}

impl Clone for NumberedNode {
    ghost is_clone = { λ file copy. numbered copy ≡ numbered file };

    fn clone(&self) -> Result<NumberedNode, AllocError> {
        Ok(NumberedNode {
            number: self.number,
            node: self.node.clone()?,
        })
    }
}

impl Clone for PlainTree {
    ghost is_clone = { λ tree copy. tree_of copy ≡ tree_of tree };

    fn clone(&self) -> Result<PlainTree, AllocError> {
        Ok(PlainTree {
            data_blocks: self.data_blocks,
            inodes: self.inodes,
            nodes: self.nodes.clone()?,
        })
    }
}

impl PlainTree {
    /// The tree of a fresh image: the root alone.
    pub fn formatted(
        alloc: Global,
        data_blocks: u32,
        inodes: u32,
        moment: Moment,
    ) -> Result<PlainTree, AllocError>
        ensures { IfOk result (λ tree. tree_of tree
            ≡ format_tree (record { data_blocks = data_blocks; inodes = inodes }) moment) }
    {
        let root = PlainNode {
            mode: ROOT_MODE,
            uid: 0,
            gid: 0,
            nlink: 2,
            atime: moment,
            mtime: moment,
            ctime: moment,
            stamp: Stamp {
                boot: 0,
                transaction: 0,
            },
            verifier: None,
            body: PlainBody::Directory {
                entries: PlainNames::new(alloc),
                span: 0,
                parent: ROOT,
            },
        };
        let mut nodes = Vec::new(alloc);
        nodes.push(NumberedNode {
            number: ROOT,
            node: root,
        })?;
        Ok(PlainTree {
            data_blocks,
            inodes,
            nodes,
        })
    }

    /// Where the first file of this number stands.
    pub fn position_of(&self, number: u32) -> Option<usize>
        ensures { result ≡ position (λ n. nat_eq number n.number) self.now.nodes.items }
    {
        self.nodes.iter().position(|n| number == n.number)
    }

    /// Where the file of this number stands, if it was made with this stamp.
    fn find_numbered(&self, number: u32, boot: u64, transaction: u64) -> Result<usize, Status>
        requires least { 0 < number }
        requires most { number < self.now.inodes }
        ensures { Locates self.now.nodes.items result
            (find_file (tree_of self.now) (handle_bytes number
            (record { boot = boot; transaction = transaction }))) }
    {
        let Some(index) = self.position_of(number) else {
            return Err(Status::Stale);
        };
        let file = &self.nodes[index];
        if boot == file.node.stamp.boot && transaction == file.node.stamp.transaction {
            Ok(index)
        } else {
            Err(Status::Stale)
        }
    }

    /// Where the file stands that a handle names.
    pub fn find(&self, handle: &Handle) -> Result<usize, Status>
        ensures { Locates self.now.nodes.items result (find_file (tree_of self.now) handle.now.bytes) }
    {
        let Some((number, Stamp { boot, transaction })) = handle.parts() else {
            return Err(Status::BadHandle);
        };
        if number == 0 || number >= self.inodes {
            return Err(Status::BadHandle);
        }
        self.find_numbered(number, boot, transaction)
    }
}
