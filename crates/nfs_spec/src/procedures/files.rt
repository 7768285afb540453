//! Laws on what READ and WRITE do with the bytes of a file, and on what WRITE takes of the blocks.
ghost use Rattle.std.specs.Prelude.{◌≡◌, ◌≤◌, ◌<◌, ◌+◌, ◌-◌, ◌⊎◌, ℕ, List, [], length, get_or, Option};
ghost use Rattle.std.specs.Prelude.{Some, None, Ok};
ghost use Rattle.base.specs.declared.TheConstants.{TRANSFER_BYTES};
ghost use Rattle.nfs_spec.specs.Model.Cost.{cost};
ghost use Rattle.nfs_spec.specs.Model.Find.{find_file};
ghost use Rattle.nfs_spec.specs.Model.Node.{Node};
ghost use Rattle.nfs_spec.specs.Model.Sound.{Sound};
ghost use Rattle.nfs_spec.specs.Model.Tree.{Tree, free, need, node_at, used, with_node};
ghost use Rattle.nfs_spec.specs.Procedures.Places.{named_file};
ghost use Rattle.nfs_spec.specs.Procedures.Read.{ReadStep, bytes_of, piece};
ghost use Rattle.nfs_spec.specs.Procedures.Remove.{RemoveStep};
ghost use Rattle.nfs_spec.specs.Procedures.Commit.{CommitStep};
ghost use Rattle.nfs_spec.specs.Procedures.Write.{WriteStep, overwritten};
ghost use Rattle.nfs_types.specs.declared.attributes.Attributes.{Attributes};
ghost use Rattle.nfs_types.specs.declared.attributes.WeakCacheData.{WeakCacheData};
ghost use Rattle.nfs_types.specs.declared.call.Stability.{Stability};
ghost use Rattle.nfs_types.specs.declared.ctx.Ctx.{Ctx};
ghost use Rattle.nfs_types.specs.declared.reply.ReadBytes.{ReadBytes};
ghost use Rattle.nfs_types.specs.declared.reply.Written.{Written};
ghost use Rattle.nfs_types.specs.declared.verifier.Verifier.{Verifier};

/// What was written is what a READ of as many bytes from there gives.
pub fn what_is_written_is_read()
    ensures { (offset : ℕ) (text bytes : List ℕ) → length text ≤ TRANSFER_BYTES
        → piece offset (length text) (overwritten offset text bytes) ≡ text }
{}

/// Between the end of the file and what is written behind it there are zeros.
pub fn a_hole_is_zeros()
    ensures { (offset at : ℕ) (text bytes : List ℕ) → length bytes ≤ at → at < offset
        → get_or (overwritten offset text bytes) at 0 ≡ 0 }
{}

/// The bytes before what is written stay.
pub fn what_lies_before_stays()
    ensures { (offset at : ℕ) (text bytes : List ℕ) → at < offset
        → get_or (overwritten offset text bytes) at 0 ≡ get_or bytes at 0 }
{}

/// The bytes behind what is written stay.
pub fn what_lies_behind_stays()
    ensures { (offset at : ℕ) (text bytes : List ℕ) → offset + length text ≤ at
        → get_or (overwritten offset text bytes) at 0 ≡ get_or bytes at 0 }
{}

/// A change of one file needs the blocks that the new one costs beyond the old one.
pub fn one_file_needs_what_it_adds()
    ensures { (tree : Tree) (number : ℕ) (old new : Node) → node_at tree number ≡ Some old
        → need tree (with_node tree number new) ≡ cost new.body - cost old.body }
{}

/// A COMMIT that is answered OK bears the verifier that each WRITE of the same boot bore, where that was
/// answered OK too.
pub fn a_commit_bears_the_verifier_of_what_was_written()
    ensures { (tree next other last : Tree) (ctx later : Ctx) (file another : List ℕ) (offset count : ℕ)
        (stability : Stability) (text : List ℕ) (reply : Written) (verifier : Verifier)
        (file_attributes tells : WeakCacheData) → ctx.boot ≡ later.boot
        → WriteStep tree ctx file offset count stability text (Ok reply) file_attributes next
        → CommitStep other later another (Ok verifier) tells last → verifier ≡ reply.verifier }
{}

/// A READ of as many bytes from where a WRITE wrote gives what was written.
pub fn a_read_gives_what_was_written()
    ensures { (tree middle last : Tree) (ctx later : Ctx) (file : List ℕ) (offset count : ℕ)
        (stability : Stability) (text : List ℕ) (reply : Written) (given : ReadBytes) (file_attributes : WeakCacheData)
        (tells : Option Attributes) → WriteStep tree ctx file offset count stability text (Ok reply) file_attributes middle
        → ReadStep middle later file offset (length text) (Ok given) tells last → given.bytes ≡ text }
{}

/// A READ of any other bytes gives what was there before the WRITE, and zeros where the file had ended.
pub fn a_read_elsewhere_gives_what_was_there()
    ensures { (tree middle last : Tree) (ctx later : Ctx) (file : List ℕ) (offset count at asked index : ℕ)
        (stability : Stability) (text : List ℕ) (reply : Written) (given : ReadBytes) (file_attributes : WeakCacheData)
        (tells : Option Attributes) (found : ℕ × Node) → find_file tree file ≡ Ok found
        → WriteStep tree ctx file offset count stability text (Ok reply) file_attributes middle
        → ReadStep middle later file at asked (Ok given) tells last → index < length given.bytes
        → (at + index < offset) ⊎ (offset + length text ≤ at + index)
        → get_or given.bytes index 0 ≡ get_or (bytes_of found.1.body) (at + index) 0 }
{}

/// A WRITE takes just the blocks that it was found to need, when its space was tested.
pub fn a_write_takes_what_it_needs()
    ensures { (tree next : Tree) (ctx : Ctx) (file : List ℕ) (offset count : ℕ) (stability : Stability)
        (text : List ℕ) (reply : Written) (file_attributes : WeakCacheData)
        → WriteStep tree ctx file offset count stability text (Ok reply) file_attributes next
        → used next ≡ used tree + need tree next }
{}

/// A WRITE of no bytes changes nothing.
pub fn a_write_of_no_bytes_leaves_the_tree()
    ensures { (tree next : Tree) (ctx : Ctx) (file : List ℕ) (offset count : ℕ) (stability : Stability)
        (reply : Written) (file_attributes : WeakCacheData)
        → WriteStep tree ctx file offset count stability [] (Ok reply) file_attributes next → next ≡ tree }
{}

/// After a REMOVE of the last name of a file the file is gone, and its blocks are free.
pub fn the_last_name_takes_the_file_with_it()
    ensures { (tree next : Tree) (ctx : Ctx) (directory name : List ℕ) (file_attributes : WeakCacheData)
        (directory_found file : ℕ × Node) → Sound tree → find_file tree directory ≡ Ok directory_found
        → named_file tree directory_found.1 name ≡ Some file → file.1.nlink ≡ 1
        → RemoveStep tree ctx directory name (Ok tt) file_attributes next
        → (node_at next file.0 ≡ None) × (free next ≡ free tree + cost file.1.body) }
{}
