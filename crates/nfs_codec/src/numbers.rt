//! The numbers of listed values (RFC 1813, sections 2.5 and 3.3.7).
ghost use Rattle.std.specs.Prelude.{◌≡◌};
ghost use Rattle.nfs_codec.specs.Items.{kind_number, stability_number};

use nfs_types::{FileKind, Stability};

/// The number of a kind of file (`ftype3`).
pub fn number_of_kind(kind: FileKind) -> u32
    ensures { result ≡ kind_number kind }
{
    match kind {
        FileKind::Regular => 1,
        FileKind::Directory => 2,
        FileKind::BlockDevice => 3,
        FileKind::CharacterDevice => 4,
        FileKind::Link => 5,
        FileKind::Socket => 6,
        FileKind::Fifo => 7,
    }
}

/// The number of a way to keep what is written (`stable_how`).
pub fn number_of_stability(stability: Stability) -> u32
    ensures { result ≡ stability_number stability }
{
    match stability {
        Stability::Unstable => 0,
        Stability::DataSync => 1,
        Stability::FileSync => 2,
    }
}
