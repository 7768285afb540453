//! What a procedure asks of files.
ghost use Rattle.std.specs.Prelude.{◌≡◌, ◌+◌, ◌-◌, ◌^◌, ◌<◌, ◌≤◌, ℕ, List, length, not, nat_le, IfOk, IfErr, IfSome};
ghost use Rattle.std.specs.Prelude.{Ok};
ghost use Rattle.std.specs.Option.{option_map};
ghost use Rattle.base.specs.declared.TheConstants.{LARGEST_FILE};
ghost use Rattle.nfs_types.specs.declared.attributes.FileKind.TheVariants as kinds;
ghost use Rattle.nfs_spec.specs.Model.Cost.{cost};
ghost use Rattle.nfs_spec.specs.Model.Node.{Body};
ghost use Rattle.nfs_spec.specs.Model.Tree.{Tree, free};
ghost use Rattle.nfs_spec.specs.Procedures.FsStat.{unused_numbers};
ghost use Rattle.nfs_spec.specs.Procedures.Places.{dirent_at};
ghost use Rattle.nfs_spec.specs.Procedures.Read.{bytes_of, piece};
ghost use Rattle.nfs_spec.specs.Procedures.ReadLink.{target_of};
ghost use Rattle.procs_files.specs.Heads.{IsFileAt, IsFileIn, IsNextName, dirent_of};

use crate::{InodeAttributes, SlotDirent, SlotName};
use nfs_types::{Octets, Pieces};
use std::alloc::{AllocError, Global};

/// The files of a server, wherever they lie. An operation may stop before its end.
pub trait Files: Drop {
    ghost use Rattle.std.specs.declared.alloc.AllocError.{AllocError};
    ghost use Rattle.std.specs.Prelude.{ℕ};
    ghost use Rattle.nfs_spec.specs.Model.Tree.{Tree};

    /// Why an operation stops.
    type Suspend: From<AllocError> + Drop;

    // What lies behind them.
    ghost World: { Type 0 };

    // Where they are read from, which no operation changes.
    ghost Source: { Type 0 };

    ghost source: { Self → Source };

    // An operation may stop so.
    ghost may_suspend: { Source → Self.Suspend → Type 0 };

    // It stops for no fault of what it reads.
    ghost is_resumable: { Self.Suspend → Type 0 };

    // What is known of a number once its file was read, or that it has none.
    ghost was_read: { Source → ℕ → Type 0 };

    // Over this world the files are those of the tree.
    ghost stands: { Self → World → Tree → Type 0 };

    /// How many inodes there are.
    fn inodes(&self) -> u32
        ensures { (world : World) (tree : Tree) → stands self.now world tree → result ≡ tree.geometry.inodes };

    /// How many blocks there are for what is in files.
    fn data_blocks(&self) -> u32
        ensures { (world : World) (tree : Tree) → stands self.now world tree
            → result ≡ tree.geometry.data_blocks };

    /// The file of a number.
    fn file(&self, number: u32) -> Result<Option<InodeAttributes>, Self::Suspend>
        ensures err { IfErr result (λ suspend. may_suspend (source self.now) suspend) }
        ensures resumable { IfErr result (λ suspend. (world : World) (tree : Tree) → stands self.now world tree
            → is_resumable suspend) }
        ensures read { IfOk result (λ found. was_read (source self.now) number) }
        ensures ok { IfOk result (λ found. (world : World) (tree : Tree) → stands self.now world tree
            → IsFileAt tree number found) };

    /// What a name in a directory leads to.
    fn dirent(
        &self,
        directory: &InodeAttributes,
        name: &[u8],
    ) -> Result<Option<SlotDirent>, Self::Suspend>
        ensures err { IfErr result (λ suspend. may_suspend (source self.now) suspend) }
        ensures resumable { IfErr result (λ suspend. (world : World) (tree : Tree) → stands self.now world tree
            → is_resumable suspend) }
        ensures ok { IfOk result (λ found. (world : World) (tree : Tree) (body : Body) → stands self.now world tree
            → IsFileIn tree directory.now body → option_map dirent_of found ≡ dirent_at body name.now) };

    /// The first name of a directory in this slot or past it.
    fn next_name(
        &self,
        alloc: Global,
        directory: &InodeAttributes,
        from: u64,
    ) -> Result<Option<SlotName>, Self::Suspend>
        ensures err { IfErr result (λ suspend. may_suspend (source self.now) suspend) }
        ensures resumable { IfErr result (λ suspend. (world : World) (tree : Tree) → stands self.now world tree
            → is_resumable suspend) }
        ensures past { IfOk result (λ found. IfSome found (λ name. from ≤ name.slot)) }
        ensures small { IfOk result (λ found. IfSome found (λ name. name.slot < 2 ^ 32)) }
        ensures ok { IfOk result (λ found. (world : World) (tree : Tree) (body : Body) → stands self.now world tree
            → IsFileIn tree directory.now body → IsNextName body from found) };

    /// A piece of a regular file, as far as there are bytes and one call moves them.
    fn bytes(
        &self,
        alloc: Global,
        file: &InodeAttributes,
        offset: u64,
        count: u32,
    ) -> Result<Pieces, Self::Suspend>
        ensures err { IfErr result (λ suspend. may_suspend (source self.now) suspend) }
        ensures resumable { IfErr result (λ suspend. (world : World) (tree : Tree) → stands self.now world tree
            → is_resumable suspend) }
        ensures ok { IfOk result (λ bytes. (world : World) (tree : Tree) (body : Body) → stands self.now world tree
            → IsFileIn tree file.now body → bytes ≡ piece offset count (bytes_of body)) };

    /// The target of a link.
    fn target(&self, alloc: Global, link: &InodeAttributes) -> Result<Octets, Self::Suspend>
        ensures err { IfErr result (λ suspend. may_suspend (source self.now) suspend) }
        ensures resumable { IfErr result (λ suspend. (world : World) (tree : Tree) → stands self.now world tree
            → is_resumable suspend) }
        ensures ok { IfOk result (λ target. (world : World) (tree : Tree) (body : Body) → stands self.now world tree
            → IsFileIn tree link.now body → link.now.kind ≡ kinds.Link → target_of body ≡ Ok target) };

    /// Whether so many data blocks are free.
    fn has_free_blocks(&self, blocks: u32) -> Result<bool, Self::Suspend>
        ensures err { IfErr result (λ suspend. may_suspend (source self.now) suspend) }
        ensures resumable { IfErr result (λ suspend. (world : World) (tree : Tree) → stands self.now world tree
            → is_resumable suspend) }
        ensures ok { IfOk result (λ has. (world : World) (tree : Tree) → stands self.now world tree
            → has ≡ nat_le blocks (free tree)) };

    /// The data blocks that no file uses.
    fn free_blocks(&self) -> Result<u32, Self::Suspend>
        ensures err { IfErr result (λ suspend. may_suspend (source self.now) suspend) }
        ensures resumable { IfErr result (λ suspend. (world : World) (tree : Tree) → stands self.now world tree
            → is_resumable suspend) }
        ensures ok { IfOk result (λ blocks. (world : World) (tree : Tree) → stands self.now world tree
            → blocks ≡ free tree) };

    /// How many numbers no file has.
    fn free_numbers(&self) -> Result<u32, Self::Suspend>
        ensures err { IfErr result (λ suspend. may_suspend (source self.now) suspend) }
        ensures resumable { IfErr result (λ suspend. (world : World) (tree : Tree) → stands self.now world tree
            → is_resumable suspend) }
        ensures ok { IfOk result (λ numbers. (world : World) (tree : Tree) → stands self.now world tree
            → numbers ≡ unused_numbers tree) };

    // It may lack memory.
    ghost may_lack_memory: { (source : Source) (error : AllocError) (suspend : Self.Suspend)
        → Self.Suspend.from_gives error suspend → may_suspend source suspend };

    ghost memory_is_no_fault: { (error : AllocError) (suspend : Self.Suspend)
        → Self.Suspend.from_gives error suspend → is_resumable suspend };
}
