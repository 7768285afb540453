//! Who calls, and when: what a procedure knows besides its arguments.
use crate::NumberList;

/// A time: seconds since 1970 and nanoseconds below 1,000,000,000 (RFC 1813, section 2.6, `nfstime3`).
/// A client may send more nanoseconds, so the type takes any.
#[derive(Clone, Copy, Debug, PartialEq, Eq)]
pub struct Moment {
    pub seconds: u32,
    pub nanoseconds: u32,
}

/// Whom the call is made for (RFC 5531, section 8.2 and appendix A): a user, the user's group, further
/// groups.
#[derive(Clone, Drop)]
pub struct Credential {
    pub uid: u32,
    pub gid: u32,
    pub gids: NumberList,
}

/// What a procedure is run with: the caller, the moment of the call, the boot number of the store and the
/// number of the call's transaction in that boot.
#[derive(Clone, Drop)]
pub struct Ctx {
    pub credential: Credential,
    pub moment: Moment,
    pub boot: u64,
    pub transaction: u64,
}
