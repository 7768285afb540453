//! Calls behind the search for their name that a run has to decide: by callers who may not, with attributes that not
//! everyone may give, of names that can't be made or taken away, and of files of another kind; in a directory with an
//! indirect block; and where no number is free.
use crate::tests::lives::{PLAIN, Row, first_unlike};
use base::LEAST_BLOCKS;
use nfs_types::{CreateHow, Moment, NewAttributes, SetTime, Verifier};
use std::test::Fail;
use tests_vectors::procedures::{Asked, File, ONES, ROOT, UNSET, ZEROS};

// The directories of the first two rows: one that only its owner may change, and one that everybody may.

const CLOSED: File = File(2, 1, 1);

const OPEN: File = File(3, 1, 2);

// What new files are to have, by a caller of number and group 7.

const ALL: NewAttributes = NewAttributes {
    mode: Some(511),
    ..UNSET
};

const SHUT: NewAttributes = NewAttributes {
    mode: Some(493),
    ..UNSET
};

const MINE: NewAttributes = NewAttributes {
    uid: Some(7),
    ..UNSET
};

const OTHERS: NewAttributes = NewAttributes {
    uid: Some(8),
    ..UNSET
};

const GROUP: NewAttributes = NewAttributes {
    gid: Some(7),
    ..UNSET
};

const OTHER_GROUP: NewAttributes = NewAttributes {
    gid: Some(9),
    ..UNSET
};

const SIZED: NewAttributes = NewAttributes {
    size: Some(5000),
    ..UNSET
};

const NONE: NewAttributes = NewAttributes {
    size: Some(0),
    ..UNSET
};

const LARGEST: NewAttributes = NewAttributes {
    size: Some(4_299_194_368),
    ..UNSET
};

const TOO_LARGE: NewAttributes = NewAttributes {
    size: Some(4_299_194_369),
    ..UNSET
};

const SERVER: NewAttributes = NewAttributes {
    atime: SetTime::Server,
    mtime: SetTime::Server,
    ..UNSET
};

const CLIENT: NewAttributes = NewAttributes {
    atime: SetTime::Client(Moment {
        seconds: 1,
        nanoseconds: 2,
    }),
    ..UNSET
};

const NO_TIME: NewAttributes = NewAttributes {
    mtime: SetTime::Client(Moment {
        seconds: 1,
        nanoseconds: 1_000_000_000,
    }),
    ..UNSET
};

const LONG: &[u8] = &[97; 255];

const TOO_LONG: &[u8] = &[97; 256];

const ROWS: &[Row] = &[
    Row::Asks(Asked::MkDir(ROOT, b"c", SHUT)),
    Row::Asks(Asked::MkDir(ROOT, b"o", ALL)),
    Row::Asks(Asked::Create(CLOSED, b"there", PLAIN)),
    Row::As(7, Asked::Create(CLOSED, b"a", PLAIN)),
    Row::As(7, Asked::Create(CLOSED, b"there", PLAIN)),
    Row::As(7, Asked::Remove(CLOSED, b"there")),
    Row::As(7, Asked::Remove(CLOSED, b"none")),
    Row::As(7, Asked::RmDir(CLOSED, b"there")),
    Row::As(7, Asked::RmDir(CLOSED, b"none")),
    Row::As(7, Asked::Create(OPEN, b"a", CreateHow::Guarded(UNSET))),
    Row::As(7, Asked::Create(OPEN, b"b", CreateHow::Unchecked(UNSET))),
    Row::As(7, Asked::Create(OPEN, b"c", CreateHow::Unchecked(ALL))),
    Row::As(7, Asked::Create(OPEN, b"d", CreateHow::Unchecked(MINE))),
    Row::As(7, Asked::Create(OPEN, b"e", CreateHow::Unchecked(OTHERS))),
    Row::As(7, Asked::Create(OPEN, b"f", CreateHow::Guarded(GROUP))),
    Row::As(
        7,
        Asked::Create(OPEN, b"g", CreateHow::Guarded(OTHER_GROUP)),
    ),
    Row::As(7, Asked::Create(OPEN, b"h", CreateHow::Unchecked(SIZED))),
    Row::As(7, Asked::Create(OPEN, b"i", CreateHow::Unchecked(NONE))),
    Row::As(7, Asked::Create(OPEN, b"j", CreateHow::Unchecked(LARGEST))),
    Row::As(
        7,
        Asked::Create(OPEN, b"k", CreateHow::Unchecked(TOO_LARGE)),
    ),
    Row::As(7, Asked::Create(OPEN, b"l", CreateHow::Unchecked(SERVER))),
    Row::As(7, Asked::Create(OPEN, b"m", CreateHow::Unchecked(CLIENT))),
    Row::As(7, Asked::Create(OPEN, b"n", CreateHow::Unchecked(NO_TIME))),
    Row::As(7, Asked::Create(OPEN, b"o", CreateHow::Exclusive(ZEROS))),
    Row::As(7, Asked::Create(OPEN, b"o", CreateHow::Exclusive(ZEROS))),
    Row::As(7, Asked::Create(OPEN, b"o", CreateHow::Exclusive(ONES))),
    Row::Asks(Asked::Create(OPEN, b"p", CreateHow::Unchecked(OTHERS))),
    Row::Asks(Asked::Create(OPEN, b".", PLAIN)),
    Row::Asks(Asked::Create(OPEN, b"..", PLAIN)),
    Row::Asks(Asked::Create(OPEN, b"", PLAIN)),
    Row::Asks(Asked::Create(OPEN, b"a/b", PLAIN)),
    Row::Asks(Asked::Create(OPEN, LONG, PLAIN)),
    Row::Asks(Asked::Create(OPEN, TOO_LONG, PLAIN)),
    Row::Asks(Asked::Create(File(5, 1, 10), b"q", PLAIN)),
    Row::Asks(Asked::Create(File(100, 1, 10), b"q", PLAIN)),
    Row::Asks(Asked::Create(File(3, 1, 9), b"q", PLAIN)),
    Row::Asks(Asked::Remove(OPEN, b".")),
    Row::Asks(Asked::Remove(OPEN, b"..")),
    Row::Asks(Asked::RmDir(OPEN, b".")),
    Row::Asks(Asked::RmDir(OPEN, b"..")),
    Row::Asks(Asked::Remove(OPEN, b"")),
    Row::Asks(Asked::RmDir(OPEN, TOO_LONG)),
    Row::Asks(Asked::Remove(OPEN, b"none")),
    Row::Asks(Asked::RmDir(OPEN, b"none")),
    Row::Asks(Asked::MkDir(OPEN, b"D", UNSET)),
    Row::Asks(Asked::SymLink(OPEN, b"L", UNSET, b"target")),
    Row::Asks(Asked::Remove(OPEN, b"D")),
    Row::Asks(Asked::RmDir(OPEN, b"L")),
    Row::Asks(Asked::RmDir(OPEN, b"a")),
    Row::Asks(Asked::Create(OPEN, b"D", CreateHow::Unchecked(NONE))),
    Row::Asks(Asked::Create(OPEN, b"L", CreateHow::Unchecked(NONE))),
    Row::Asks(Asked::Create(OPEN, b"h", CreateHow::Unchecked(NONE))),
    Row::Asks(Asked::Create(OPEN, b"h", CreateHow::Unchecked(TOO_LARGE))),
    Row::Asks(Asked::Remove(OPEN, b"L")),
    Row::Asks(Asked::RmDir(OPEN, b"D")),
    Row::Asks(Asked::RmDir(ROOT, b"o")),
    Row::Asks(Asked::RmDir(ROOT, b"c")),
    Row::Asks(Asked::Remove(OPEN, b"a")),
    Row::Asks(Asked::Remove(OPEN, b"a")),
    Row::Asks(Asked::Remove(CLOSED, b"there")),
    Row::Asks(Asked::RmDir(ROOT, b"c")),
    Row::Asks(Asked::RmDir(ROOT, b"c")),
    // no number is left
    Row::Takes(0),
    Row::Asks(Asked::Create(OPEN, b"r", PLAIN)),
    Row::Asks(Asked::Create(ROOT, b"s", PLAIN)),
    Row::Asks(Asked::MkDir(ROOT, b"t", UNSET)),
    Row::Asks(Asked::Remove(OPEN, b"b")),
    Row::Asks(Asked::RmDir(ROOT, b"t")),
];

// What the first rows of the other two lists make.

const FIRST: File = File(2, 1, 1);

// A directory with an indirect block.
const WIDE: &[Row] = &[
    Row::Asks(Asked::MkDir(ROOT, b"d", UNSET)),
    Row::Asks(Asked::Create(ROOT, b"f", PLAIN)),
    Row::Links(FIRST, b'a', 48, 248),
    Row::Links(FIRST, b'b', 48, 248),
    Row::Asks(Asked::Create(FIRST, b"none", PLAIN)),
    Row::Asks(Asked::Create(FIRST, b"none", PLAIN)),
    Row::Asks(Asked::RmDir(ROOT, b"d")),
    Row::Asks(Asked::Remove(ROOT, b"d")),
    Row::Asks(Asked::Remove(FIRST, b"none")),
    Row::RemovesAll(FIRST, b'a', 48, 248),
    Row::Asks(Asked::RmDir(ROOT, b"d")),
    Row::RemovesAll(FIRST, b'b', 48, 248),
    Row::Asks(Asked::Remove(ROOT, b"d")),
    Row::Asks(Asked::Create(FIRST, b"none", PLAIN)),
    Row::Asks(Asked::Remove(FIRST, b"none")),
    Row::Asks(Asked::RmDir(ROOT, b"d")),
];

// Numbers run out.
const NUMBERS: &[Row] = &[
    Row::Asks(Asked::MkDir(ROOT, b"d", UNSET)),
    Row::Creates(b'a', 48, 180),
    Row::Asks(Asked::MkDir(ROOT, b"e", UNSET)),
    Row::RemovesAll(FIRST, b'a', 100, 102),
    Row::Asks(Asked::Create(FIRST, b"none", PLAIN)),
    Row::Asks(Asked::MkDir(ROOT, b"e", UNSET)),
    Row::Asks(Asked::RmDir(ROOT, b"e")),
];

#[test]
fn on_edges(rt: HostRuntime) -> Result<(), Fail> {
    assert_eq!(rt; first_unlike(rt.alloc(), LEAST_BLOCKS, ROWS)?, None);
    Ok(())
}

#[test]
fn on_wide(rt: HostRuntime) -> Result<(), Fail> {
    assert_eq!(rt; first_unlike(rt.alloc(), LEAST_BLOCKS, WIDE)?, None);
    Ok(())
}

#[test]
fn on_numbers(rt: HostRuntime) -> Result<(), Fail> {
    assert_eq!(rt; first_unlike(rt.alloc(), LEAST_BLOCKS, NUMBERS)?, None);
    Ok(())
}
