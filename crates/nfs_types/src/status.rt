//! Why a procedure refused (RFC 1813, sections 2.5 and 2.6, `nfsstat3`).

/// The statuses of this server but OK, which a reply tells by the variant of its outcome.
#[derive(Clone, Copy, Debug, PartialEq, Eq)]
pub enum Status {
    Perm,
    NoEnt,
    Io,
    Acces,
    Exist,
    NotDir,
    IsDir,
    Inval,
    FBig,
    NoSpc,
    MLink,
    NameTooLong,
    NotEmpty,
    Stale,
    BadHandle,
    NotSync,
    BadCookie,
    NotSupp,
    TooSmall,
    ServerFault,
}
