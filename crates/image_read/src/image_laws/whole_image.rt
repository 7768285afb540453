//! Laws on an image as a whole.
ghost use Rattle.std.specs.Prelude.{◌≡◌, ◌*◌, ◌<◌, ◌≤◌, ◌||◌, ℕ, true, false, get_or, length, nat_le, nat_lt};
ghost use Rattle.base.specs.declared.TheConstants.{BITS_PER_BLOCK, BLOCK_BYTES, ROOT};
ghost use Rattle.disk.specs.Crash.{Image};
ghost use Rattle.nfs_types.specs.Fits.{AreBytes};
ghost use Rattle.nfs_spec.specs.Model.Names.{ancestor, names_of, parent_in};
ghost use Rattle.nfs_spec.specs.Model.Sound.{SoundNode};
ghost use Rattle.nfs_spec.specs.Model.Tree.{Tree, node_at, used};
ghost use Rattle.layout.specs.declared.geometry.Geometry.{Geometry};
ghost use Rattle.layout.specs.declared.inode.Inode.{Inode};
ghost use Rattle.layout.specs.declared.inode.InodeKind.TheVariants.{Directory};
ghost use Rattle.layout.specs.Decode.{IsFile, body_of, node_with};
ghost use Rattle.layout.specs.Geometry.{bitmap_blocks, data_at};
ghost use Rattle.layout.specs.Holds.{Holds};
ghost use Rattle.layout.specs.InodeForm.{SoundInode};
ghost use Rattle.layout.specs.Owners.{IsMarked, is_marked_inode, owned};
ghost use Rattle.layout.specs.Parts.{Parts, content_in, parts_of, table_of};
ghost use Rattle.layout.specs.Stands.{HasFiles, Stands, geometry_of};
ghost use Rattle.image_read.specs.ImageCounts.Iterated.{iterated};
ghost use Rattle.image_read.specs.ImageCounts.Tally.{IsOwned, Owned, times};
ghost use Rattle.image_read.specs.Laws.TreeOf.{HasNames, all_named, tree_of};
ghost use Rattle.image_read.specs.Laws.Whole.{IsWhole};

/// Where each inode is a file's, the tree that is made of the files has them, and no other of that geometry has.
pub fn an_image_has_one_tree()
    ensures made { (g : Geometry) (blocks : Image) → ((number : ℕ) → number < g.inodes
        → IsFile g (content_in g blocks) ((parts_of g blocks).table number))
        → HasFiles g (parts_of g blocks) (tree_of g blocks) }
    ensures one { (g : Geometry) (blocks : Image) (tree : Tree) → tree.geometry ≡ geometry_of g
        → HasFiles g (parts_of g blocks) tree → tree ≡ tree_of g blocks }
{}

/// As often as the slots of all directories name a number, so often the tree does.
pub fn names_are_those_of_slots()
    ensures { (g : Geometry) (blocks : Image) (tree : Tree) → HasFiles g (parts_of g blocks) tree → (number : ℕ)
        → names_of tree number ≡ times (all_named g (parts_of g blocks)) number }
{}

/// The files use what is owned, and that is no more than there is where no block has two owners.
pub fn what_is_owned_is_used_and_fits()
    ensures used { (g : Geometry) (blocks : Image) (tree : Tree) → Holds g blocks tree
        → used tree ≡ length (owned g (parts_of g blocks)) }
    ensures fits { (g : Geometry) (blocks : Image) (tree : Tree) → Holds g blocks tree
        → used tree ≤ tree.geometry.data_blocks }
{}

/// Where the root is its own parent, a directory is reached from it just where as many steps to the parent as there
/// are numbers, or more, lead there.
pub fn a_reached_directory_is_reached_soon()
    ensures furthest { (tree : Tree) (size furthest number : ℕ)
        → ((n : ℕ) → n < size → parent_in (node_at tree n) < size) → parent_in (node_at tree ROOT) ≡ ROOT
        → size ≤ furthest → number < size
        → (steps : ℕ) × (ancestor tree steps number ≡ ROOT)
        → iterated (λ n. parent_in (node_at tree n)) furthest number ≡ ROOT }
    ensures reached { (tree : Tree) (size furthest number : ℕ)
        → ((n : ℕ) → n < size → parent_in (node_at tree n) < size) → parent_in (node_at tree ROOT) ≡ ROOT
        → size ≤ furthest → number < size → iterated (λ n. parent_in (node_at tree n)) furthest number ≡ ROOT
        → (steps : ℕ) × (ancestor tree steps number ≡ ROOT) }
{}

/// A file is sound by itself where its inode and its blocks are as its kind has them, and the names in its slots are
/// names.
pub fn a_file_of_an_image_is_sound_by_itself()
    ensures { (g : Geometry) (content : Image) (inode : Inode) → ((n : ℕ) → length (content n) ≡ BLOCK_BYTES)
        → ((n : ℕ) → AreBytes (content n)) → SoundInode g inode
        → (inode.kind ≡ Directory → HasNames g content inode)
        → SoundNode (node_with inode (body_of g.inodes content inode.kind inode)) }
{}

/// An image whose inodes are files', whose bitmaps mark what is in use, and that is whole, stands for its tree.
pub fn a_whole_image_stands_for_its_tree()
    ensures { (g : Geometry) (blocks : Image) → ((number : ℕ) → number < g.blocks
        → (length (blocks number) ≡ BLOCK_BYTES) × AreBytes (blocks number))
        → ((number : ℕ) → number < g.inodes → IsFile g (content_in g blocks) (table_of g blocks number))
        → IsMarked g (parts_of g blocks) → IsWhole g blocks → Stands g blocks (tree_of g blocks) }
{}

/// An image that stands for a tree is whole.
pub fn an_image_of_a_tree_is_whole()
    ensures { (g : Geometry) (blocks : Image) (tree : Tree) → Stands g blocks tree → IsWhole g blocks }
{}

/// By what is kept of the owners no block has two owners and the bitmaps mark what is in use, or they don't.
pub fn owners_decide_the_marks()
    ensures marked { (g : Geometry) (parts : Parts) (is_preserved : Owned) → IsOwned (owned g parts) is_preserved
        → length is_preserved.has ≡ g.blocks → is_preserved.shared ≡ false
        → ((number : ℕ) → number < BITS_PER_BLOCK * bitmap_blocks g.blocks
        → parts.block_bits number ≡ (nat_lt number (data_at g.blocks g.inodes) || nat_le g.blocks number
        || get_or is_preserved.has number false))
        → ((number : ℕ) → number < BITS_PER_BLOCK * bitmap_blocks g.inodes
        → parts.inode_bits number ≡ is_marked_inode g parts number)
        → IsMarked g parts }
    ensures bits { (g : Geometry) (parts : Parts) (is_preserved : Owned) → IsOwned (owned g parts) is_preserved
        → length is_preserved.has ≡ g.blocks → IsMarked g parts
        → (number : ℕ) → number < BITS_PER_BLOCK * bitmap_blocks g.blocks
        → parts.block_bits number ≡ (nat_lt number (data_at g.blocks g.inodes) || nat_le g.blocks number
        || get_or is_preserved.has number false) }
    ensures shared { (g : Geometry) (parts : Parts) (is_preserved : Owned) → IsOwned (owned g parts) is_preserved
        → length is_preserved.has ≡ g.blocks → IsMarked g parts → is_preserved.shared ≡ true → ⊥ }
{}
