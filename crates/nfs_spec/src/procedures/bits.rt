//! Bits that the standard fixes.

// What ACCESS asks and tells of a file (RFC 1813, section 3.3.4).

/// To read it.
pub const ACCESS_READ: u32 = 1;
/// To find names in a directory.
pub const ACCESS_LOOKUP: u32 = 2;
/// To change what is in it.
pub const ACCESS_MODIFY: u32 = 4;
/// To make it longer.
pub const ACCESS_EXTEND: u32 = 8;
/// To remove names from a directory.
pub const ACCESS_DELETE: u32 = 16;
/// To execute a file.
pub const ACCESS_EXECUTE: u32 = 32;

// What FSINFO tells of the file system (section 3.3.19).

/// A file may have several names.
pub const HAS_LINKS: u32 = 1;
/// There are symbolic links.
pub const HAS_SYMBOLIC_LINKS: u32 = 2;
/// PATHCONF tells the same of each file.
pub const IS_HOMOGENEOUS: u32 = 8;
/// SETATTR sets times as exactly as the server tells the time of day.
pub const SETS_TIMES: u32 = 16;
