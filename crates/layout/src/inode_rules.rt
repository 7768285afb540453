//! What an inode shows by itself.
ghost use Rattle.std.specs.Prelude.{◌≡◌, ◌≤◌, not, nat_eq, length};
ghost use Rattle.std.specs.List.{list_all};
ghost use Rattle.layout.specs.InodeForm.{is_data_block_or_none, is_time, names_first, is_sound_file};
ghost use Rattle.layout.specs.InodeForm.{is_sound_map, is_sound_regular, is_sound_directory, is_sound_link};
ghost use Rattle.layout.specs.InodeForm.{is_sound_kind, is_sound_inode};

use crate::{Geometry, Inode, InodeKind};
use base::{
    BLOCK_BYTES, DIRECT_INDEXES, LARGEST_DIRECTORY, LARGEST_FILE, MODE_BITS, MOST_LINKS,
    NANOSECONDS, TARGET_BYTES,
};
use nfs_types::Moment;

/// Whether the number is that of no block, or of a data block.
pub(crate) fn is_data_block_or_none(geometry: &Geometry, number: u32) -> bool
    ensures { result ≡ is_data_block_or_none geometry.now number }
{
    number == 0 || geometry.is_data(number)
}

fn is_time(time: &Moment) -> bool
    ensures { result ≡ is_time time.now }
{
    time.nanoseconds < NANOSECONDS
}

/// Whether each number is that of no block, or of a data block.
pub(crate) fn are_data_blocks_or_none(geometry: &Geometry, numbers: &[u32]) -> bool
    ensures { result ≡ list_all (is_data_block_or_none geometry.now) numbers.now }
{
    for number in numbers {
        if !is_data_block_or_none(geometry, *number) {
            return false;
        }
    }
    true
}

fn are_zero(numbers: &[u32]) -> bool
    ensures { result ≡ list_all (λ number. nat_eq number 0) numbers.now }
{
    numbers.iter().all(|number| *number == 0)
}

fn are_some(numbers: &[u32]) -> bool
    ensures { result ≡ list_all (λ number. not (nat_eq number 0)) numbers.now }
{
    numbers.iter().all(|number| *number != 0)
}

// Whether the first numbers are those of blocks, and the others of none.
fn names_first(count: usize, numbers: &[u32]) -> bool
    requires { count ≤ length numbers.now }
    ensures { result ≡ names_first count numbers.now }
{
    let (some, none) = numbers.split_at(count);
    are_some(some) && are_zero(none)
}

impl Inode {
    // What each file's inode satisfies.
    fn is_sound_file(&self) -> bool
        ensures { result ≡ is_sound_file self.now }
    {
        self.mode <= MODE_BITS
            && self.nlink >= 1
            && self.nlink <= MOST_LINKS
            && is_time(&self.atime)
            && is_time(&self.mtime)
            && is_time(&self.ctime)
    }

    fn is_sound_map(&self, geometry: &Geometry) -> bool
        ensures { result ≡ is_sound_map geometry.now self.now }
    {
        are_data_blocks_or_none(geometry, &self.direct)
            && is_data_block_or_none(geometry, self.indirect)
            && is_data_block_or_none(geometry, self.double)
            && (self.double == 0 || geometry.version.has_double())
    }

    fn is_sound_regular(&self) -> bool
        ensures { result ≡ is_sound_regular self.now }
    {
        self.size <= LARGEST_FILE && self.parent == 0
    }

    fn is_sound_directory(&self, geometry: &Geometry) -> bool
        ensures { result ≡ is_sound_directory geometry.now self.now }
    {
        let span = self.size / BLOCK_BYTES as u64;
        self.nlink >= 2
            && self.size <= LARGEST_DIRECTORY
            && self.size % BLOCK_BYTES as u64 == 0
            && self.parent > 0
            && self.parent < geometry.inodes
            && names_first(span.min(DIRECT_INDEXES as u64) as usize, &self.direct)
            && (if span > DIRECT_INDEXES as u64 {
                self.indirect != 0
            } else {
                self.indirect == 0
            })
            && self.double == 0
            && self.verifier.is_none()
    }

    fn is_sound_link(&self) -> bool
        ensures { result ≡ is_sound_link self.now }
    {
        self.size >= 1
            && self.size <= TARGET_BYTES as u64
            && self.parent == 0
            && names_first(1, &self.direct)
            && self.indirect == 0
            && self.double == 0
            && self.verifier.is_none()
    }

    /// Whether it shows nothing wrong by itself.
    pub(crate) fn is_sound(&self, geometry: &Geometry) -> bool
        ensures { result ≡ is_sound_inode geometry.now self.now }
    {
        self.is_sound_kind(geometry)
    }

    fn is_sound_kind(&self, geometry: &Geometry) -> bool
        ensures { result ≡ is_sound_kind geometry.now self.now.kind self.now }
    {
        match self.kind {
            InodeKind::Regular => {
                self.is_sound_file() && self.is_sound_map(geometry) && self.is_sound_regular()
            }
            InodeKind::Directory => {
                self.is_sound_file()
                    && self.is_sound_map(geometry)
                    && self.is_sound_directory(geometry)
            }
            InodeKind::Link => {
                self.is_sound_file() && self.is_sound_map(geometry) && self.is_sound_link()
            }
        }
    }
}
