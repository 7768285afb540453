//! What a procedure does to files.
ghost use Rattle.std.specs.Prelude.{◌≡◌, ◌+◌, ◌-◌, ◌<◌, ◌≤◌, ℕ, List, length, not, Some, IfOk, IfErr, OnOk};
ghost use Rattle.base.specs.declared.TheConstants.{LARGEST_FILE, TRANSFER_BYTES};
ghost use Rattle.nfs_spec.specs.Model.Cost.{cost};
ghost use Rattle.nfs_spec.specs.Model.Node.{Body, Node};
ghost use Rattle.nfs_spec.specs.Model.SetAttr.{with_length};
ghost use Rattle.nfs_spec.specs.Model.Sound.{SoundBody};
ghost use Rattle.nfs_spec.specs.Model.Tree.{Tree, free, node_at, with_node};
ghost use Rattle.nfs_spec.specs.Procedures.Changes.{with_dirent, without_dirent, without_node};
ghost use Rattle.nfs_spec.specs.Procedures.Fresh.{IsNewNumber, IsUnused};
ghost use Rattle.nfs_spec.specs.Procedures.Places.{least_free_slot};
ghost use Rattle.nfs_spec.specs.Procedures.Rename.{with_parent};
ghost use Rattle.nfs_spec.specs.Procedures.RmDir.{has_names};
ghost use Rattle.nfs_spec.specs.Procedures.Write.{with_text};
ghost use Rattle.procs_files.specs.Writable.{CanEnter, SoundInodeAttributes, adds, first_body, headed};
ghost use Rattle.procs_files.specs.Heads.{IsBodyOf, IsFileIn, dirent_of, node_of};

use crate::{Files, InodeAttributes, SlotDirent};
use std::alloc::Global;

/// Files that change. A procedure asks all that it has to know before its first change. What an operation that
/// stopped leaves isn't said.
pub trait WritableFiles: Files {
    ghost use Rattle.std.specs.Prelude.{ℕ};

    // How many inodes and data blocks were written so far.
    ghost dirty_count: { Self → ℕ };

    /// The least slot of a directory in which no name lies.
    fn free_slot(&self, directory: &InodeAttributes) -> Result<Option<u32>, Self::Suspend>
        ensures err { IfErr result (λ suspend. Self.may_suspend (Self.source self.now) suspend) }
        ensures resumable { IfErr result (λ suspend. (world : Self.World) (tree : Tree)
            → Self.stands self.now world tree → Self.is_resumable suspend) }
        ensures ok { IfOk result (λ slot. (world : Self.World) (tree : Tree) (body : Body)
            → Self.stands self.now world tree → IsFileIn tree directory.now body
            → slot ≡ least_free_slot body) };

    /// Whether no name lies in a file.
    fn is_empty(&self, file: &InodeAttributes) -> Result<bool, Self::Suspend>
        ensures err { IfErr result (λ suspend. Self.may_suspend (Self.source self.now) suspend) }
        ensures resumable { IfErr result (λ suspend. (world : Self.World) (tree : Tree)
            → Self.stands self.now world tree → Self.is_resumable suspend) }
        ensures ok { IfOk result (λ empty. (world : Self.World) (tree : Tree) (body : Body)
            → Self.stands self.now world tree → IsFileIn tree file.now body → empty ≡ not (has_names body)) };

    /// What so many bytes that are written to a file add to the blocks that it uses.
    fn unmapped(
        &self,
        file: &InodeAttributes,
        offset: u64,
        count: usize,
    ) -> Result<u32, Self::Suspend>
        requires some { 0 < count }
        requires small { offset + count ≤ LARGEST_FILE }
        ensures err { IfErr result (λ suspend. Self.may_suspend (Self.source self.now) suspend) }
        ensures resumable { IfErr result (λ suspend. (world : Self.World) (tree : Tree)
            → Self.stands self.now world tree → Self.is_resumable suspend) }
        ensures ok { IfOk result (λ blocks. (world : Self.World) (tree : Tree) (body : Body) (text : List ℕ)
            → Self.stands self.now world tree → IsFileIn tree file.now body → length text ≡ count
            → blocks ≡ cost (with_text offset text body) - cost body) };

    /// A number that a file may have and none has.
    fn new_number(&self) -> Result<Option<u32>, Self::Suspend>
        ensures err { IfErr result (λ suspend. Self.may_suspend (Self.source self.now) suspend) }
        ensures resumable { IfErr result (λ suspend. (world : Self.World) (tree : Tree)
            → Self.stands self.now world tree → Self.is_resumable suspend) }
        ensures ok { IfOk result (λ number. (world : Self.World) (tree : Tree) → Self.stands self.now world tree
            → IsNewNumber tree number) };

    /// Sets the attributes of a file that is there, and the parent of a directory.
    fn set(&mut self, inode_attributes: &InodeAttributes) -> Result<(), Self::Suspend>
        ensures err { IfErr result (λ suspend. Self.may_suspend (Self.source self.old) suspend) }
        ensures source { Self.source self.new ≡ Self.source self.old }
        ensures dirty_count { dirty_count self.new ≤ dirty_count self.old + 1 }
        ensures resumable { IfErr result (λ suspend. (world : Self.World) (tree : Tree)
            → Self.stands self.old world tree → Self.is_resumable suspend) }
        ensures ok { OnOk result ((world : Self.World) (tree : Tree) (node : Node)
            → Self.stands self.old world tree → node_at tree inode_attributes.now.number ≡ Some node
            → IsBodyOf inode_attributes.now (with_parent inode_attributes.now.parent node.body) → SoundInodeAttributes tree.geometry.inodes inode_attributes.now
            → Self.stands self.new world (with_node tree inode_attributes.now.number
            (node_of inode_attributes.now (with_parent inode_attributes.now.parent node.body)))) };

    /// Takes a name out of a directory, whose attributes become these.
    fn depart(
        &mut self,
        inode_attributes: &InodeAttributes,
        name: &[u8],
    ) -> Result<(), Self::Suspend>
        ensures err { IfErr result (λ suspend. Self.may_suspend (Self.source self.old) suspend) }
        ensures source { Self.source self.new ≡ Self.source self.old }
        ensures dirty_count { dirty_count self.new ≤ dirty_count self.old + 2 }
        ensures resumable { IfErr result (λ suspend. (world : Self.World) (tree : Tree)
            → Self.stands self.old world tree → Self.is_resumable suspend) }
        ensures ok { OnOk result ((world : Self.World) (tree : Tree) (node : Node)
            → Self.stands self.old world tree → node_at tree inode_attributes.now.number ≡ Some node
            → IsBodyOf inode_attributes.now node.body → SoundInodeAttributes tree.geometry.inodes inode_attributes.now
            → Self.stands self.new world (with_node tree inode_attributes.now.number
            (node_of inode_attributes.now (without_dirent name.now node.body)))) };

    /// Gives a directory, whose attributes become these, a name for a file. A name that it has leads to this
    /// file from then on. The head is that of the directory with the name.
    fn enter(
        &mut self,
        alloc: Global,
        inode_attributes: &InodeAttributes,
        name: &[u8],
        dirent: SlotDirent,
    ) -> Result<InodeAttributes, Self::Suspend>
        ensures err { IfErr result (λ suspend. Self.may_suspend (Self.source self.old) suspend) }
        ensures source { Self.source self.new ≡ Self.source self.old }
        ensures dirty_count { dirty_count self.new ≤ dirty_count self.old + 4 }
        ensures resumable { IfErr result (λ suspend. (world : Self.World) (tree : Tree)
            → Self.stands self.old world tree → Self.is_resumable suspend) }
        ensures ok { IfOk result (λ next. (world : Self.World) (tree : Tree) (node : Node)
            → Self.stands self.old world tree → node_at tree inode_attributes.now.number ≡ Some node
            → IsBodyOf inode_attributes.now node.body → SoundInodeAttributes tree.geometry.inodes inode_attributes.now
            → CanEnter tree node.body name.now (dirent_of dirent)
            → adds (with_dirent name.now (dirent_of dirent) node.body) node.body ≤ free tree
            → (next ≡ headed inode_attributes.now (with_dirent name.now (dirent_of dirent) node.body))
            × Self.stands self.new world (with_node tree inode_attributes.now.number
            (node_of inode_attributes.now (with_dirent name.now (dirent_of dirent) node.body)))) };

    /// Writes bytes to a regular file, whose attributes become these. The head is that of the file with them.
    fn write(
        &mut self,
        alloc: Global,
        inode_attributes: &InodeAttributes,
        offset: u64,
        text: &[u8],
    ) -> Result<InodeAttributes, Self::Suspend>
        requires some { 0 < length text.now }
        requires small { offset + length text.now ≤ LARGEST_FILE }
        ensures err { IfErr result (λ suspend. Self.may_suspend (Self.source self.old) suspend) }
        ensures source { Self.source self.new ≡ Self.source self.old }
        ensures dirty_count { length text.now ≤ TRANSFER_BYTES → dirty_count self.new ≤ dirty_count self.old + 71 }
        ensures resumable { IfErr result (λ suspend. (world : Self.World) (tree : Tree)
            → Self.stands self.old world tree → Self.is_resumable suspend) }
        ensures ok { IfOk result (λ next. (world : Self.World) (tree : Tree) (node : Node)
            → Self.stands self.old world tree → node_at tree inode_attributes.now.number ≡ Some node
            → IsBodyOf inode_attributes.now node.body → SoundInodeAttributes tree.geometry.inodes inode_attributes.now
            → adds (with_text offset text.now node.body) node.body ≤ free tree
            → (next ≡ headed inode_attributes.now (with_text offset text.now node.body))
            × Self.stands self.new world (with_node tree inode_attributes.now.number
            (node_of inode_attributes.now (with_text offset text.now node.body)))) };

    /// Cuts a regular file, whose attributes become these, or fills it up with zeros, for which it takes no
    /// block. The head is that of the file of this size.
    fn resize(
        &mut self,
        inode_attributes: &InodeAttributes,
        size: u64,
    ) -> Result<InodeAttributes, Self::Suspend>
        requires { size ≤ LARGEST_FILE }
        ensures err { IfErr result (λ suspend. Self.may_suspend (Self.source self.old) suspend) }
        ensures source { Self.source self.new ≡ Self.source self.old }
        ensures dirty_count { dirty_count self.new ≤ dirty_count self.old + 5 }
        ensures resumable { IfErr result (λ suspend. (world : Self.World) (tree : Tree)
            → Self.stands self.old world tree → Self.is_resumable suspend) }
        ensures ok { IfOk result (λ next. (world : Self.World) (tree : Tree) (node : Node)
            → Self.stands self.old world tree → node_at tree inode_attributes.now.number ≡ Some node
            → IsBodyOf inode_attributes.now node.body → SoundInodeAttributes tree.geometry.inodes inode_attributes.now
            → (next ≡ headed inode_attributes.now (with_length (Some size) node.body))
            × Self.stands self.new world (with_node tree inode_attributes.now.number
            (node_of inode_attributes.now (with_length (Some size) node.body)))) };

    /// Makes a file of this head, under a number that none has: without bytes, without names, or a link with
    /// this target.
    fn make(
        &mut self,
        alloc: Global,
        inode_attributes: &InodeAttributes,
        target: &[u8],
    ) -> Result<(), Self::Suspend>
        ensures err { IfErr result (λ suspend. Self.may_suspend (Self.source self.old) suspend) }
        ensures source { Self.source self.new ≡ Self.source self.old }
        ensures dirty_count { dirty_count self.new ≤ dirty_count self.old + 2 }
        ensures resumable { IfErr result (λ suspend. (world : Self.World) (tree : Tree)
            → Self.stands self.old world tree → Self.is_resumable suspend) }
        ensures ok { OnOk result ((world : Self.World) (tree : Tree)
            → Self.stands self.old world tree → IsUnused tree inode_attributes.now.number
            → IsBodyOf inode_attributes.now (first_body inode_attributes.now target.now) → SoundInodeAttributes tree.geometry.inodes inode_attributes.now
            → SoundBody (first_body inode_attributes.now target.now)
            → cost (first_body inode_attributes.now target.now) ≤ free tree
            → Self.stands self.new world (with_node tree inode_attributes.now.number
            (node_of inode_attributes.now (first_body inode_attributes.now target.now)))) };

    /// Takes a file away.
    fn remove(&mut self, number: u32) -> Result<(), Self::Suspend>
        ensures err { IfErr result (λ suspend. Self.may_suspend (Self.source self.old) suspend) }
        ensures source { Self.source self.new ≡ Self.source self.old }
        ensures dirty_count { dirty_count self.new ≤ dirty_count self.old + 1 }
        ensures resumable { IfErr result (λ suspend. (world : Self.World) (tree : Tree)
            → Self.stands self.old world tree → Self.is_resumable suspend) }
        ensures ok { OnOk result ((world : Self.World) (tree : Tree) → Self.stands self.old world tree
            → Self.stands self.new world (without_node tree number)) };
}
