//! Parts of arguments and results, as words (RFC 1813, sections 2.3 to 2.6; RFC 4506, sections 4.2 to 4.11).

/// The handle (`nfs_fh3`) of file 9, which transaction 0x0506_0708 of boot 0x0102_0304 made.
pub const HANDLE: [u32; 6] = [20, 9, 0, 0x0102_0304, 0, 0x0506_0708];

/// That of file 10, of the boot and the transaction of which each has one in its higher half alone.
pub const OTHER_HANDLE: [u32; 6] = [20, 10, 1, 0, 1, 0];

/// The name `file`.
pub const NAME: [u32; 2] = [4, 0x6669_6c65];

/// The name `new`, and a zero.
pub const NEW_NAME: [u32; 2] = [3, 0x6e65_7700];

/// The target `a/b`, and a zero.
pub const TARGET: [u32; 2] = [3, 0x612f_6200];

/// The five bytes `hello`, and three zeros.
pub const DATA: [u32; 3] = [5, 0x6865_6c6c, 0x6f00_0000];

/// Attributes that are set (`sattr3`): mode 420, owner 1000, no group, a size of 4,096 bytes, the server's
/// time for the access, and second 2000 and nanosecond 5 for the modification.
pub const SET: [u32; 12] = [1, 420, 1, 1000, 0, 1, 0, 4096, 1, 2, 2000, 5];

/// None that are set.
pub const UNSET: [u32; 6] = [0, 0, 0, 0, 0, 0];

/// The eight bytes of a verifier.
pub const VERIFIER: [u32; 2] = [0x1112_1314, 0x1516_1718];

/// An optional part that is there.
pub const SOME: [u32; 1] = [1];

/// One that isn't.
pub const NONE: [u32; 1] = [0];

/// The status OK.
pub const OK: [u32; 1] = [0];

/// What is told of a regular file (`fattr3`): its kind and mode, 2 links, owner 1000, group 100; a size of 5
/// bytes of which 4,096 are used; a device of the numbers 11 and 12; file 9 of file system 7; and the three
/// times.
pub const ATTRIBUTES: [u32; 21] = [
    1, 420, 2, 1000, 100, 0, 5, 0, 4096, 11, 12, 0, 7, 0, 9, 100, 1, 200, 2, 300, 3,
];

/// What is told of a file before a change (`wcc_attr`), where it is there: a size of 2^32 and 4 bytes, and two times.
pub const WAS: [u32; 7] = [1, 1, 4, 150, 15, 250, 25];

/// The entry of a listing that is there: file 9 as `file`, at cookie 4.
pub const ENTRY: [u32; 7] = [1, 0, 9, 4, 0x6669_6c65, 0, 4];

/// Another: file 10 as `new`, at cookie 5.
pub const NEW_ENTRY: [u32; 7] = [1, 0, 10, 3, 0x6e65_7700, 0, 5];

/// Bytes in all, free, and free to the caller; the same of files; and for 40 seconds.
pub const SPACE: [u32; 13] = [2, 1000, 1, 900, 0, 800, 0, 70, 0, 60, 0, 50, 40];

/// Sizes of reads, of writes and of listings, the largest file, the clock's step of a microsecond, and the properties
/// as bits.
pub const INFO: [u32; 12] = [60, 50, 40, 30, 20, 10, 5, 1, 8, 0, 1000, 27];
