//! The cookies of a listing (RFC 1813, section 3.3.16, leaves them to the server).

/// The cookie of `.`.
pub const ITSELF_COOKIE: u64 = 1;
/// The cookie of `..`.
pub const PARENT_COOKIE: u64 = 2;
/// The cookie of the name in a directory's first slot; each further slot has the next.
pub const FIRST_SLOT_COOKIE: u64 = 3;
