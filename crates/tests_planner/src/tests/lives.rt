//! Calls one behind the other on an image: each is planned both ways on what those before it left, and is replayed
//! then.
ghost use Rattle.std.specs.Prelude.{◌≡◌, All, OnOk};
ghost use Rattle.nfs_spec.specs.Model.Sound.{SoundTime};
ghost use Rattle.store_images.specs.Replays.Replayed.{CanBeReplayed};

use crate::tests::restarts::plans_alike;
use base::{FIRST_HOME_BLOCK, LEAST_BLOCKS};
use disk::{Block, BlockNo, CrashDisk, MemDisk};
use layout::{FormatVersion, Geometry, PIECE_BYTES, PIECES_PER_BLOCK};
use nfs_types::{Call, CreateHow, Credential, Ctx, Moment, NewAttributes, NumberList, SpecialFile};
use procs::begins_transaction;
use std::alloc::Global;
use std::test::Fail;
use store::can_be_spelled;
use store_images::replay;
use tests_vectors::messages::MADE;
use tests_vectors::procedures::{Asked, File, ROOT, UNSET, ZEROS, call};

const INODES: u32 = 128;

const NOW: Moment = Moment {
    seconds: 2000,
    nanoseconds: 0,
};

// Pieces of the bitmap from which free blocks are looked for: the one that has the bits of all blocks, another, and
// none.
const STARTS: [u32; 3] = [0, 3, 8];

/// A row: a call of the superuser; the second file's links in a directory, or files that are made in the first one, at
/// the names of a first byte and each second byte from one on and below an end; so many bytes that a file gets at each
/// of these offsets; sizes that it gets, one behind the other; none of the blocks is free from then on that have a
/// bit in a piece of the bitmap; a call of another caller; or a directory's names of a first byte and such second
/// bytes are taken away.
pub(crate) enum Row<'a> {
    Asks(Asked<'a>),
    Links(File, u8, u8, u8),
    Creates(u8, u8, u8),
    Writes(File, u32, &'a [u64]),
    Sizes(File, &'a [u64]),
    Takes(u32),
    As(u32, Asked<'a>),
    RemovesAll(File, u8, u8, u8),
}

// What the first two rows make, and the third of names.
const DIRECTORY: File = File(2, 1, 1);

const FILE: File = File(3, 1, 2);

const OTHER: File = File(4, 1, 3);

/// A new file under a name that leads to none.
pub(crate) const PLAIN: CreateHow = CreateHow::Guarded(UNSET);

const CUT: NewAttributes = NewAttributes {
    size: Some(5000),
    ..UNSET
};

const GROWN: NewAttributes = NewAttributes {
    size: Some(4_227_072),
    ..UNSET
};

const EMPTY: NewAttributes = NewAttributes {
    size: Some(0),
    ..UNSET
};

// What is made; what a file's bytes are, from the first block on, written over, in part and as a whole, across the
// border of the indirect block, in a hole and at the end; what is refused.
const BYTES: &[Row] = &[
    Row::Asks(Asked::MkDir(ROOT, b"d", UNSET)),
    Row::Asks(Asked::Create(ROOT, b"f", PLAIN)),
    Row::Asks(Asked::WriteMany(FILE, 0, 32_768)),
    Row::Asks(Asked::WriteMany(FILE, 30_000, 32_768)),
    Row::Asks(Asked::WriteMany(FILE, 0, 32_768)),
    Row::Asks(Asked::WriteMany(FILE, 1_000, 32_768)),
    Row::Asks(Asked::WriteMany(FILE, 4_190_000, 20_000)),
    Row::Asks(Asked::WriteMany(FILE, 57_344, 32_768)),
    Row::Asks(Asked::WriteMany(FILE, 0, 0)),
    Row::Asks(Asked::WriteMany(FILE, 4_220_000, 20_000)),
    Row::Asks(Asked::WriteMany(DIRECTORY, 0, 10)),
    Row::Asks(Asked::Read(FILE, 0, 32_768)),
    Row::Asks(Asked::Read(FILE, 20_000, 32_768)),
    Row::Asks(Asked::Read(FILE, 45_000, 32_768)),
    Row::Asks(Asked::Read(FILE, 4_180_000, 32_768)),
    Row::Asks(Asked::Read(FILE, 4_209_999, 10)),
    Row::Asks(Asked::Read(FILE, 5_000_000, 10)),
    Row::Asks(Asked::WriteMany(FILE, 50_000, 131_072)),
    Row::Asks(Asked::Read(FILE, 20_000, 131_072)),
    Row::Asks(Asked::Read(FILE, 100_000, 4_294_967_295)),
    Row::Asks(Asked::Read(FILE, 0, 0)),
    Row::Asks(Asked::Read(DIRECTORY, 0, 10)),
    Row::Asks(Asked::Read(File(3, 1, 1), 0, 10)),
    Row::Asks(Asked::Read(File(127, 1, 1), 0, 10)),
    Row::Asks(Asked::Read(File(129, 1, 1), 0, 10)),
    Row::Asks(Asked::GetAttr(FILE)),
    Row::Asks(Asked::Access(FILE, 63)),
    Row::Asks(Asked::Commit(FILE, 0, 0)),
    Row::Asks(Asked::FsStat(ROOT)),
    Row::Asks(Asked::FsInfo(ROOT)),
    Row::Asks(Asked::PathConf(ROOT)),
    Row::Asks(Asked::SetAttr(FILE, CUT, None)),
    Row::Asks(Asked::SetAttr(FILE, GROWN, None)),
    Row::Asks(Asked::Read(FILE, 0, 32_768)),
    Row::Asks(Asked::SetAttr(FILE, EMPTY, None)),
    Row::Asks(Asked::WriteMany(FILE, 20_000, 32_768)),
    Row::Asks(Asked::SetAttr(FILE, CUT, None)),
    Row::Asks(Asked::Create(ROOT, b"f", CreateHow::Unchecked(EMPTY))),
    Row::Asks(Asked::WriteMany(FILE, 4_000, 32_768)),
    Row::Asks(Asked::WriteMany(FILE, 4_190_000, 20_000)),
    Row::Asks(Asked::Create(ROOT, b"f", PLAIN)),
    Row::Asks(Asked::Create(ROOT, b"g", PLAIN)),
    Row::Asks(Asked::Rename(ROOT, b"g", ROOT, b"d")),
    Row::Asks(Asked::Rename(ROOT, b"g", ROOT, b"f")),
    Row::Asks(Asked::Create(ROOT, b"h", PLAIN)),
    Row::Asks(Asked::WriteMany(File(3, 1, 45), 0, 65_536)),
    Row::Asks(Asked::Remove(ROOT, b"d")),
    Row::Asks(Asked::Remove(ROOT, b"h")),
    Row::Asks(Asked::Remove(ROOT, b"f")),
];

// What a directory of three blocks lists, with room for all and for some, behind cookies; names that come and go; and
// names that go from a directory of several blocks to another, from the first block of one and a later one of the
// other.
const NAMES: &[Row] = &[
    Row::Asks(Asked::MkDir(ROOT, b"d", UNSET)),
    Row::Asks(Asked::Create(ROOT, b"f", PLAIN)),
    Row::Asks(Asked::MkDir(ROOT, b"e", UNSET)),
    Row::Asks(Asked::ReadDir(DIRECTORY, 0, ZEROS, 32_768)),
    Row::Asks(Asked::ReadDirPlus(DIRECTORY, 0, ZEROS, 32_768, 32_768)),
    Row::Links(DIRECTORY, b'n', 48, 68),
    Row::Creates(b'm', 48, 96),
    Row::Asks(Asked::ReadDir(DIRECTORY, 0, ZEROS, 4_294_967_295)),
    Row::Asks(Asked::ReadDir(DIRECTORY, 0, ZEROS, 500)),
    Row::Asks(Asked::ReadDir(DIRECTORY, 1, ZEROS, 32_768)),
    Row::Asks(Asked::ReadDir(DIRECTORY, 40, ZEROS, 1_500)),
    Row::Asks(Asked::ReadDir(DIRECTORY, 70, ZEROS, 32_768)),
    Row::Asks(Asked::ReadDir(DIRECTORY, 9_999, ZEROS, 32_768)),
    Row::Asks(Asked::ReadDir(DIRECTORY, 0, ZEROS, 10)),
    Row::Asks(Asked::ReadDir(FILE, 0, ZEROS, 32_768)),
    Row::Asks(Asked::ReadDirPlus(DIRECTORY, 0, ZEROS, 4_294_967_295, 4_294_967_295)),
    Row::Asks(Asked::ReadDirPlus(DIRECTORY, 0, ZEROS, 32_768, 6_000)),
    Row::Asks(Asked::ReadDirPlus(DIRECTORY, 2, ZEROS, 600, 32_768)),
    Row::Asks(Asked::ReadDirPlus(DIRECTORY, 40, ZEROS, 32_768, 32_768)),
    Row::Asks(Asked::ReadDirPlus(ROOT, 0, ZEROS, 32_768, 32_768)),
    Row::Asks(Asked::Lookup(DIRECTORY, b"m_")),
    Row::Asks(Asked::Lookup(DIRECTORY, b"none")),
    Row::Asks(Asked::SymLink(DIRECTORY, b"l", UNSET, b"t")),
    Row::Asks(Asked::ReadLink(FILE)),
    Row::Asks(Asked::MkNod(DIRECTORY, b"s", SpecialFile::Fifo(UNSET))),
    Row::Asks(Asked::Rename(DIRECTORY, b"m0", ROOT, b"f")),
    Row::Asks(Asked::Rename(DIRECTORY, b"m1", DIRECTORY, b"m2")),
    Row::Links(OTHER, b'k', 48, 88),
    Row::Asks(Asked::Rename(DIRECTORY, b"m_", OTHER, b"k0")),
    Row::Asks(Asked::Rename(DIRECTORY, b"m4", OTHER, b"none")),
    Row::Asks(Asked::Rename(OTHER, b"kW", DIRECTORY, b"n0")),
    Row::Asks(Asked::Rename(OTHER, b"none", DIRECTORY, b"m5")),
    Row::Asks(Asked::Rename(DIRECTORY, b"n1", DIRECTORY, b"m6")),
    Row::Asks(Asked::Rename(DIRECTORY, b"never", OTHER, b"k1")),
    Row::Asks(Asked::Remove(DIRECTORY, b"m3")),
    Row::Asks(Asked::RmDir(ROOT, b"d")),
    Row::Asks(Asked::ReadDirPlus(DIRECTORY, 0, ZEROS, 32_768, 32_768)),
];

// A directory that goes into one four levels deep, from there to one level less and back to the root; and one that
// can't go below itself.
const LEVELS: &[Row] = &[
    Row::Asks(Asked::MkDir(ROOT, b"a", UNSET)),
    Row::Asks(Asked::MkDir(File(2, 1, 1), b"b", UNSET)),
    Row::Asks(Asked::MkDir(File(3, 1, 2), b"c", UNSET)),
    Row::Asks(Asked::MkDir(File(4, 1, 3), b"d", UNSET)),
    Row::Asks(Asked::MkDir(ROOT, b"m", UNSET)),
    Row::Asks(Asked::Rename(ROOT, b"m", File(5, 1, 4), b"n")),
    Row::Asks(Asked::Rename(File(2, 1, 1), b"b", File(6, 1, 5), b"b")),
    Row::Asks(Asked::Rename(File(5, 1, 4), b"n", File(4, 1, 3), b"n")),
    Row::Asks(Asked::Rename(File(4, 1, 3), b"n", ROOT, b"m")),
];

// An image of so many blocks.
fn formatted(alloc: Global, blocks: u32) -> Result<MemDisk, Fail> {
    let mut disk = MemDisk::new(alloc, blocks)?;
    store::format(alloc, &mut disk, INODES, MADE)?;
    Ok(disk)
}

// The context in the first boot of a caller of this number, which his group has too.
fn context(alloc: Global, uid: u32, transaction: u64) -> Ctx
    ensures { SoundTime result.moment }
{
    Ctx {
        credential: Credential {
            uid,
            gid: uid,
            gids: NumberList::new(Vec::new(alloc)),
        },
        moment: NOW,
        boot: 1,
        transaction,
    }
}

// Adds a call of the first boot.
fn add(
    alloc: Global,
    entries: &mut Vec<(Ctx, Call)>,
    uid: u32,
    transaction: u64,
    call: Call,
) -> Result<(), Fail>
    requires { All CanBeReplayed entries.old.items }
    ensures { OnOk result (All CanBeReplayed entries.new.items) }
{
    if !can_be_spelled(&call) {
        return Err("it can't be spelled")?;
    }
    entries.push((context(alloc, uid, transaction), call))?;
    Ok(())
}

// Whether each call is planned alike both ways on the image as it is.
fn are_alike(alloc: Global, disk: &MemDisk, entries: &[(Ctx, Call)]) -> Result<bool, Fail>
    requires { All CanBeReplayed entries.now }
{
    let geometry = Geometry::new(FormatVersion::Second, disk.blocks(), INODES)?;
    for entry in entries {
        if !begins_transaction(&entry.1) {
            return Ok(false);
        }
        for from in STARTS {
            if !plans_alike(alloc, disk, geometry, from, &entry.0, &entry.1)? {
                return Ok(false);
            }
        }
    }
    Ok(true)
}

// A call is planned both ways, and then replayed. Whether the plans were alike.
fn goes_alike(
    alloc: Global,
    disk: &mut MemDisk,
    transaction: u64,
    asked: &Asked,
) -> Result<bool, Fail> {
    goes_alike_as(alloc, disk, 0, transaction, asked)
}

// The same of a call by a caller of this number.
fn goes_alike_as(
    alloc: Global,
    disk: &mut MemDisk,
    uid: u32,
    transaction: u64,
    asked: &Asked,
) -> Result<bool, Fail> {
    let mut entries = Vec::new(alloc);
    add(alloc, &mut entries, uid, transaction, call(alloc, asked)?)?;
    let is_alike = are_alike(alloc, disk, &entries)?;
    replay(alloc, disk, &entries)?;
    Ok(is_alike)
}

// None of the blocks is free any more that have a bit in a piece of the bitmap's first block.
fn take_all(alloc: Global, disk: &mut MemDisk, piece: u32) -> Result<(), Fail> {
    if piece >= PIECES_PER_BLOCK || disk.blocks() <= FIRST_HOME_BLOCK {
        return Err("it has no such piece")?;
    }
    let mut bitmap = Block::zeros(alloc)?;
    bitmap.copy_from(disk.newest(BlockNo(FIRST_HOME_BLOCK)));
    bitmap.put(PIECE_BYTES * piece as usize, &[255; PIECE_BYTES]);
    disk.set(BlockNo(FIRST_HOME_BLOCK), &bitmap);
    Ok(())
}

// The same, with the number of the next call, where it goes alike.
fn next_behind(
    alloc: Global,
    disk: &mut MemDisk,
    uid: u32,
    transaction: u64,
    asked: &Asked,
) -> Result<Option<u64>, Fail> {
    if goes_alike_as(alloc, disk, uid, transaction, asked)? {
        Ok(Some(transaction.saturating_add(1)))
    } else {
        Ok(None)
    }
}

// The same for REMOVEs of a directory's names of a first byte and each second byte from one on and below an end. The
// first has this number. The number of the next, where all were alike.
fn removes_go_alike(
    alloc: Global,
    disk: &mut MemDisk,
    transaction: u64,
    directory: File,
    first: u8,
    from: u8,
    end: u8,
) -> Result<Option<u64>, Fail> {
    let mut next = transaction;
    for second in from..end {
        let asked = Asked::Remove(directory, &[first, second]);
        if !goes_alike(alloc, disk, next, &asked)? {
            return Ok(None);
        }
        next = next.saturating_add(1);
    }
    Ok(Some(next))
}

// The same for WRITEs of so many bytes of a file at these offsets.
fn writes_go_alike(
    alloc: Global,
    disk: &mut MemDisk,
    transaction: u64,
    file: File,
    count: u32,
    offsets: &[u64],
) -> Result<Option<u64>, Fail> {
    let mut next = transaction;
    for offset in offsets {
        let asked = Asked::WriteMany(file, *offset, count);
        if !goes_alike(alloc, disk, next, &asked)? {
            return Ok(None);
        }
        next = next.saturating_add(1);
    }
    Ok(Some(next))
}

// The same for SETATTRs that give a file these sizes.
fn sizes_go_alike(
    alloc: Global,
    disk: &mut MemDisk,
    transaction: u64,
    file: File,
    sizes: &[u64],
) -> Result<Option<u64>, Fail> {
    let mut next = transaction;
    for size in sizes {
        let wanted = NewAttributes {
            size: Some(*size),
            ..UNSET
        };
        if !goes_alike(alloc, disk, next, &Asked::SetAttr(file, wanted, None))? {
            return Ok(None);
        }
        next = next.saturating_add(1);
    }
    Ok(Some(next))
}

// The same for each of the calls of a row, of which the first has this number. The number of the next, where all were.
fn row_goes_alike(
    alloc: Global,
    disk: &mut MemDisk,
    transaction: u64,
    row: &Row,
) -> Result<Option<u64>, Fail> {
    let mut next = transaction;
    match *row {
        Row::Asks(ref asked) => return next_behind(alloc, disk, 0, next, asked),
        Row::As(uid, ref asked) => return next_behind(alloc, disk, uid, next, asked),
        Row::Links(directory, first, from, end) => {
            for second in from..end {
                let asked = Asked::Link(FILE, directory, &[first, second]);
                if !goes_alike(alloc, disk, next, &asked)? {
                    return Ok(None);
                }
                next = next.saturating_add(1);
            }
        }
        Row::Creates(first, from, end) => {
            for second in from..end {
                let asked = Asked::Create(DIRECTORY, &[first, second], PLAIN);
                if !goes_alike(alloc, disk, next, &asked)? {
                    return Ok(None);
                }
                next = next.saturating_add(1);
            }
        }
        Row::Writes(file, count, offsets) => {
            return writes_go_alike(alloc, disk, next, file, count, offsets);
        }
        Row::Sizes(file, sizes) => return sizes_go_alike(alloc, disk, next, file, sizes),
        Row::Takes(piece) => take_all(alloc, disk, piece)?,
        Row::RemovesAll(directory, first, from, end) => {
            return removes_go_alike(alloc, disk, next, directory, first, from, end);
        }
    }
    Ok(Some(next))
}

/// The number of the first row on a fresh image of so many blocks whose plans aren't alike, where there is one.
pub(crate) fn first_unlike(
    alloc: Global,
    blocks: u32,
    rows: &[Row],
) -> Result<Option<usize>, Fail> {
    let mut disk = formatted(alloc, blocks)?;
    let mut next = 1;
    for (number, row) in rows.iter().enumerate() {
        match row_goes_alike(alloc, &mut disk, next, row)? {
            Some(later) => next = later,
            None => return Ok(Some(number)),
        }
    }
    Ok(None)
}

#[test]
fn on_bytes(rt: HostRuntime) -> Result<(), Fail> {
    assert_eq!(rt; first_unlike(rt.alloc(), LEAST_BLOCKS, BYTES)?, None);
    Ok(())
}

#[test]
fn on_names(rt: HostRuntime) -> Result<(), Fail> {
    assert_eq!(rt; first_unlike(rt.alloc(), LEAST_BLOCKS, NAMES)?, None);
    Ok(())
}

#[test]
fn on_levels(rt: HostRuntime) -> Result<(), Fail> {
    assert_eq!(rt; first_unlike(rt.alloc(), LEAST_BLOCKS, LEVELS)?, None);
    Ok(())
}
