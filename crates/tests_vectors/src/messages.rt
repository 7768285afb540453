//! What all rows have in common.

use nfs_types::Moment;

/// When images are made.
pub const MADE: Moment = Moment {
    seconds: 1000,
    nanoseconds: 0,
};
