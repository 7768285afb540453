//! What is known of a file without what is in it.
ghost use Rattle.std.specs.Prelude.{◌≡◌, ◌*◌, IfOk, OnOk};
ghost use Rattle.base.specs.declared.TheConstants.{BLOCK_BYTES};
ghost use Rattle.nfs_spec.specs.Model.Attributes.{size_of};
ghost use Rattle.nfs_spec.specs.Model.Cost.{cost};
ghost use Rattle.nfs_spec.specs.Procedures.Rename.{with_parent};
ghost use Rattle.plain_tree.specs.Tree.Plain.{body_of, node_of as plain_node};
ghost use Rattle.procs_files.specs.Writable.{first_body, headed};
ghost use Rattle.procs_files.specs.Heads.{IsBodyOf, node_of};

use crate::tree_files::contents::parent_of;
use nfs_types::{FileKind, Octets};
use plain_tree::{MappedIndexes, NumberedNode, PlainBody, PlainNames, PlainNode, PlainTree};
use procs_files::InodeAttributes;
use std::alloc::{AllocError, Global};

/// The files of a tree in memory.
#[derive(Drop)]
pub struct PlainFiles {
    pub tree: PlainTree,
}

/// The head of a file.
pub(crate) fn inode_attributes_of(file: &NumberedNode) -> InodeAttributes
    ensures number { result.number ≡ file.now.number }
    ensures node { node_of result (body_of file.now.node.body) ≡ plain_node file.now.node }
    ensures body { IsBodyOf result (body_of file.now.node.body) }
{
    let node = &file.node;
    InodeAttributes {
        number: file.number,
        kind: node.body.kind(),
        mode: node.mode,
        uid: node.uid,
        gid: node.gid,
        nlink: node.nlink,
        size: node.body.size(),
        used: node.body.used(),
        parent: parent_of(&node.body),
        atime: node.atime,
        mtime: node.mtime,
        ctime: node.ctime,
        stamp: node.stamp,
        verifier: node.verifier,
    }
}

/// A file of this head with this in it.
pub(crate) fn with_body(inode_attributes: &InodeAttributes, body: PlainBody) -> PlainNode
    ensures { plain_node result ≡ node_of inode_attributes.now (body_of body) }
{
    PlainNode {
        mode: inode_attributes.mode,
        uid: inode_attributes.uid,
        gid: inode_attributes.gid,
        nlink: inode_attributes.nlink,
        atime: inode_attributes.atime,
        mtime: inode_attributes.mtime,
        ctime: inode_attributes.ctime,
        stamp: inode_attributes.stamp,
        verifier: inode_attributes.verifier,
        body,
    }
}

/// The head of a file with this in it, whose other attributes are these.
pub(crate) fn headed(inode_attributes: &InodeAttributes, body: &PlainBody) -> InodeAttributes
    ensures { result ≡ headed inode_attributes.now (body_of body.now) }
{
    InodeAttributes {
        size: body.size(),
        used: body.used(),
        ..*inode_attributes
    }
}

/// A directory gets another parent.
pub(crate) fn set_parent(body: &mut PlainBody, number: u32)
    ensures { body_of body.new ≡ with_parent number (body_of body.old) }
{
    if let PlainBody::Directory { parent, .. } = body {
        *parent = number;
    }
}

/// What is in a new file.
pub(crate) fn first_body(
    alloc: Global,
    inode_attributes: &InodeAttributes,
    target: &[u8],
) -> Result<PlainBody, AllocError>
    ensures { IfOk result (λ body. body_of body ≡ first_body inode_attributes.now target.now) }
{
    match inode_attributes.kind {
        FileKind::Directory => Ok(PlainBody::Directory {
            entries: PlainNames::new(alloc),
            span: 0,
            parent: inode_attributes.parent,
        }),
        FileKind::Regular => Ok(PlainBody::Regular {
            bytes: Vec::new(alloc),
            mapped: MappedIndexes::new(alloc),
        }),
        _ => Ok(PlainBody::Link {
            target: Octets::copied(alloc, target)?,
        }),
    }
}
