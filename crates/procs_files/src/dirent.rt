//! Names in directories.
use nfs_types::Octets;

/// What a name in a directory leads to, and the slot in which it lies.
#[derive(Clone, Copy, Debug, PartialEq, Eq)]
pub struct SlotDirent {
    pub number: u32,
    pub slot: u32,
}

/// A name in the slot in which it lies, and what it leads to.
#[derive(Drop)]
pub struct SlotName {
    pub slot: u32,
    pub name: Octets,
    pub number: u32,
}
