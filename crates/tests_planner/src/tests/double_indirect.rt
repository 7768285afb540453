//! Files past their indirect block that are cut and taken away.
use crate::tests::lives::{PLAIN, Row, first_unlike};
use base::LEAST_BLOCKS;
use nfs_types::{CreateHow, NewAttributes};
use std::test::Fail;
use tests_vectors::procedures::{Asked, File, ROOT, UNSET, ZEROS};

// Three files, each of which a row makes.
const FIRST: File = File(2, 1, 1);

const SECOND: File = File(3, 1, 2);

const THIRD: File = File(4, 1, 3);

// The offsets of the first bytes of what these name: the indirect block, the first inner block, the second, and the last.
const INDIRECT_AT: u64 = 32_768;

const DOUBLE_AT: u64 = 4_227_072;

const INNER_AT: u64 = 8_421_376;

const LAST_AT: u64 = 4_295_000_064;

const LARGEST: u64 = 4_299_194_368;

const SHORT: NewAttributes = NewAttributes {
    size: Some(9_000_000),
    ..UNSET
};

// Offsets of bytes on both sides of each border, and of some that inner blocks between these name.
const PLACES: &[u64] = &[
    0,
    INDIRECT_AT - 5_000,
    2_000_000,
    DOUBLE_AT - 5_000,
    6_000_000,
    INNER_AT - 5_000,
    1_000_000_000,
    2_147_480_000,
    LAST_AT - 5_000,
    LARGEST - 10_000,
];

// Files that have bytes at these places are found by their names, listed and read. They are cut at borders, within blocks
// and in holes, and taken away by a RENAME and by REMOVEs, one of which leaves its file another name.
const ROWS: &[Row] = &[
    Row::Asks(Asked::Create(ROOT, b"f", PLAIN)),
    Row::Asks(Asked::Create(ROOT, b"g", PLAIN)),
    Row::Asks(Asked::Create(ROOT, b"h", PLAIN)),
    Row::Writes(FIRST, 10_000, PLACES),
    Row::Writes(SECOND, 10_000, PLACES),
    Row::Writes(THIRD, 10_000, PLACES),
    Row::Asks(Asked::GetAttr(FIRST)),
    Row::Asks(Asked::Lookup(ROOT, b"f")),
    Row::Asks(Asked::ReadDirPlus(ROOT, 0, ZEROS, 32_768, 32_768)),
    Row::Asks(Asked::Read(FIRST, LAST_AT - 5_000, 32_768)),
    Row::Asks(Asked::Read(FIRST, LARGEST - 5_000, 32_768)),
    Row::Sizes(
        FIRST,
        &[
            LARGEST - 1,
            LAST_AT + 1,
            LAST_AT,
            LAST_AT - 4_000,
            3_000_000_000,
        ],
    ),
    Row::Sizes(
        FIRST,
        &[
            2_147_480_001,
            1_000_000_001,
            INNER_AT + 4_096,
            INNER_AT + 1,
            INNER_AT,
        ],
    ),
    Row::Sizes(
        FIRST,
        &[
            INNER_AT - 4_096,
            6_000_000,
            DOUBLE_AT + 1,
            DOUBLE_AT,
            DOUBLE_AT - 1,
        ],
    ),
    Row::Sizes(
        FIRST,
        &[2_000_000, INDIRECT_AT + 1, INDIRECT_AT, 4_096, 1, 0],
    ),
    Row::Writes(FIRST, 10_000, PLACES),
    Row::Sizes(FIRST, &[5_000, LARGEST, 0]),
    Row::Writes(FIRST, 10_000, PLACES),
    Row::Sizes(FIRST, &[0]),
    Row::Writes(FIRST, 10_000, PLACES),
    Row::Asks(Asked::Create(ROOT, b"f", CreateHow::Unchecked(UNSET))),
    Row::Asks(Asked::Create(ROOT, b"f", CreateHow::Unchecked(SHORT))),
    Row::Asks(Asked::Link(FIRST, ROOT, b"i")),
    Row::Asks(Asked::Remove(ROOT, b"f")),
    Row::Asks(Asked::Rename(ROOT, b"h", ROOT, b"i")),
    Row::Asks(Asked::Rename(ROOT, b"i", ROOT, b"j")),
    Row::Asks(Asked::Remove(ROOT, b"j")),
    Row::Asks(Asked::Remove(ROOT, b"g")),
];

// An image whose blocks have bits in four pieces of the bitmap.
const MANY_BLOCKS: u32 = 16_384;

// Of these files blocks lie in each piece in turn: of the first one an inner block and the double indirect block, the
// indirect block, blocks that the inode names itself and another inner block, and then blocks that each of these names.
const PIECES: &[Row] = &[
    Row::Asks(Asked::Create(ROOT, b"f", PLAIN)),
    Row::Asks(Asked::Create(ROOT, b"g", PLAIN)),
    Row::Asks(Asked::Create(ROOT, b"h", PLAIN)),
    Row::Writes(FIRST, 10_000, &[6_000_000]),
    Row::Writes(SECOND, 10_000, &[0, 6_000_000]),
    Row::Writes(THIRD, 10_000, &[2_000_000]),
    Row::Takes(0),
    Row::Writes(FIRST, 10_000, &[2_000_000]),
    Row::Writes(SECOND, 10_000, &[1_000_000_000]),
    Row::Writes(THIRD, 10_000, &[6_000_000]),
    Row::Takes(1),
    Row::Writes(FIRST, 10_000, &[0, 1_000_000_000]),
    Row::Writes(SECOND, 10_000, &[2_000_000, LARGEST - 10_000]),
    Row::Writes(THIRD, 10_000, &[0, 1_000_000_000]),
    Row::Takes(2),
    Row::Writes(
        FIRST,
        10_000,
        &[20_000, 3_000_000, 7_000_000, LARGEST - 10_000],
    ),
    Row::Writes(
        SECOND,
        10_000,
        &[20_000, 3_000_000, 7_000_000, 1_001_000_000],
    ),
    Row::Writes(
        THIRD,
        10_000,
        &[20_000, 3_000_000, 7_000_000, LARGEST - 10_000],
    ),
    Row::Sizes(FIRST, &[5_000]),
    Row::Sizes(SECOND, &[2_000_001, 0]),
    Row::Asks(Asked::Remove(ROOT, b"h")),
    Row::Asks(Asked::Create(ROOT, b"h", PLAIN)),
    Row::Writes(SECOND, 10_000, PLACES),
    Row::Asks(Asked::Rename(ROOT, b"h", ROOT, b"g")),
];

#[test]
fn on_borders(rt: HostRuntime) -> Result<(), Fail> {
    assert_eq!(rt; first_unlike(rt.alloc(), LEAST_BLOCKS, ROWS)?, None);
    Ok(())
}

#[test]
fn on_pieces(rt: HostRuntime) -> Result<(), Fail> {
    assert_eq!(rt; first_unlike(rt.alloc(), MANY_BLOCKS, PIECES)?, None);
    Ok(())
}
