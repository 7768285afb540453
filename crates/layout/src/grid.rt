//! Laws on the objects of an image.
ghost use Rattle.std.specs.Prelude.{◌≡◌, ◌<◌, ◌≤◌};
ghost use Rattle.base.specs.declared.TheConstants.{FIRST_HOME_BLOCK};
ghost use Rattle.objects.specs.Addr.{Overlap};
ghost use Rattle.objects.specs.declared.addr.Addr.{Addr};
ghost use Rattle.layout.specs.declared.geometry.Geometry.{Geometry};
ghost use Rattle.layout.specs.Objects.{IsObject};

/// The bytes of a piece of a bitmap, as it is read and written at once.
pub const PIECE_BYTES: usize = 512;

/// The bits of a piece of a bitmap.
pub const PIECE_BITS: u32 = 4096;

/// The pieces of a block of a bitmap.
pub const PIECES_PER_BLOCK: u32 = 8;

/// The objects of an image lie behind the log and within the image.
pub fn objects_lie_at_home()
    ensures { (g : Geometry) (addr : Addr) → IsObject g addr
        → (FIRST_HOME_BLOCK ≤ addr.block.0) × (addr.block.0 < g.blocks) }
{}

/// Two objects of an image that share a byte are one.
pub fn objects_are_one_or_apart()
    ensures { (g : Geometry) (a b : Addr) → IsObject g a → IsObject g b → Overlap a b → a ≡ b }
{}
