//! Laws on how records are spelled in bytes.
ghost use Rattle.std.specs.Prelude.{◌≡◌, ◌↔◌, ℕ, true, false, List, length, Option, Some, Ok, Err};
ghost use Rattle.std.specs.List.{list_all};
ghost use Rattle.base.specs.declared.TheConstants.{BLOCK_BYTES, INDIRECT_INDEXES, INODE_BYTES};
ghost use Rattle.nfs_types.specs.Fits.{AreBytes};
ghost use Rattle.layout.specs.declared.fault.LayoutFault.{LayoutFault};
ghost use Rattle.layout.specs.declared.fault.LayoutFault.TheVariants.{Range};
ghost use Rattle.layout.specs.declared.geometry.Geometry.{Geometry};
ghost use Rattle.layout.specs.declared.inode.Inode.{Inode};
ghost use Rattle.layout.specs.declared.super_block.Super.{Super};
ghost use Rattle.layout.specs.Fields.{numbers_at};
ghost use Rattle.layout.specs.NumbersForm.{IsNumbers};
ghost use Rattle.layout.specs.SuperForm.{IsSuper, super_bytes};
ghost use Rattle.layout.specs.declared.slot.Slot.{Slot};
ghost use Rattle.layout.specs.declared.slot.TheConstants.{SLOT_BYTES};
ghost use Rattle.layout.specs.SlotForm.{read_slot, IsInDirectory};
ghost use Rattle.layout.specs.InodeForm.{is_data_block_or_none, read_inode, inode_bytes, SoundInode, IsInTable};

/// Bytes are read as an inode, or as a free one, exactly where they are its bytes.
pub fn an_inode_is_its_bytes()
    ensures { (g : Geometry) (bytes : List ℕ) (one : Option Inode)
        → AreBytes bytes → length bytes ≡ INODE_BYTES
        → read_inode g bytes ≡ Ok one ↔ IsInTable g bytes one }
{}

/// The bytes that a sound inode gets are read as this inode.
pub fn a_written_inode_is_read()
    ensures { (g : Geometry) (inode : Inode) → SoundInode g inode
        → read_inode g (inode_bytes inode) ≡ Ok (Some inode) }
{}

/// Bytes are refused exactly where they are those of no inode, and not of a free one.
pub fn other_bytes_are_no_inode()
    ensures { (g : Geometry) (bytes : List ℕ) (fault : LayoutFault)
        → AreBytes bytes → length bytes ≡ INODE_BYTES
        → read_inode g bytes ≡ Err fault
        ↔ (fault ≡ Range) × ((one : Option Inode) → IsInTable g bytes one → ⊥) }
{}

/// Bytes are read as a slot, or as a free one, exactly where they are its bytes.
pub fn a_slot_is_its_bytes()
    ensures { (inodes : ℕ) (bytes : List ℕ) (one : Option Slot) → AreBytes bytes → length bytes ≡ SLOT_BYTES
        → read_slot inodes bytes ≡ Ok one ↔ IsInDirectory inodes bytes one }
{}

/// Bytes are refused exactly where they are those of no slot, and not of a free one.
pub fn other_bytes_are_no_slot()
    ensures { (inodes : ℕ) (bytes : List ℕ) (fault : LayoutFault) → AreBytes bytes
        → length bytes ≡ SLOT_BYTES
        → read_slot inodes bytes ≡ Err fault
        ↔ (fault ≡ Range) × ((one : Option Slot) → IsInDirectory inodes bytes one → ⊥) }
{}

/// Numbers are those in a block, and each is 0 or that of a data block, exactly where the block is their bytes.
pub fn an_indirect_block_is_its_bytes()
    ensures { (g : Geometry) (bytes : List ℕ) (numbers : List ℕ) → AreBytes bytes
        → length bytes ≡ BLOCK_BYTES
        → (numbers ≡ numbers_at INDIRECT_INDEXES 0 bytes)
        × (list_all (is_data_block_or_none g) numbers ≡ true)
        ↔ IsNumbers g bytes numbers }
{}

/// A block in which a number is neither 0 nor that of a data block is no indirect block.
pub fn other_bytes_are_no_indirect_block()
    ensures { (g : Geometry) (bytes : List ℕ) (numbers : List ℕ) → AreBytes bytes
        → length bytes ≡ BLOCK_BYTES
        → list_all (is_data_block_or_none g) (numbers_at INDIRECT_INDEXES 0 bytes) ≡ false
        → IsNumbers g bytes numbers → ⊥ }
{}

/// A block that is a super block is the bytes that this super block gets.
pub fn a_super_block_has_one_spelling()
    ensures { (bytes : List ℕ) (s : Super) → AreBytes bytes → length bytes ≡ BLOCK_BYTES → IsSuper bytes s
        → bytes ≡ super_bytes s }
{}

/// A block is one super block at most: its bytes tell version, counts and boot number.
pub fn a_block_is_one_super_block()
    ensures { (bytes : List ℕ) (s t : Super) → IsSuper bytes s → IsSuper bytes t → s ≡ t }
{}

/// Geometries of the same version and counts are one.
pub fn counts_make_one_geometry()
    ensures { (g h : Geometry) → g.version ≡ h.version → g.blocks ≡ h.blocks → g.inodes ≡ h.inodes → g ≡ h }
{}
