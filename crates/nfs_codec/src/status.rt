//! The numbers of statuses (RFC 1813, section 2.6).
ghost use Rattle.std.specs.Prelude.{◌≡◌};
ghost use Rattle.xdr.specs.Codes.{numbered};
ghost use Rattle.nfs_codec.specs.Statuses.{status_number, refusals};

use nfs_types::Status;

/// The number of a status but OK (`nfsstat3`).
pub fn number_of_status(status: Status) -> u32
    ensures { result ≡ status_number status }
{
    match status {
        Status::Perm => 1,
        Status::NoEnt => 2,
        Status::Io => 5,
        Status::Acces => 13,
        Status::Exist => 17,
        Status::NotDir => 20,
        Status::IsDir => 21,
        Status::Inval => 22,
        Status::FBig => 27,
        Status::NoSpc => 28,
        Status::MLink => 31,
        Status::NameTooLong => 63,
        Status::NotEmpty => 66,
        Status::Stale => 70,
        Status::BadHandle => 10_001,
        Status::NotSync => 10_002,
        Status::BadCookie => 10_003,
        Status::NotSupp => 10_004,
        Status::TooSmall => 10_005,
        Status::ServerFault => 10_006,
    }
}

/// The status of a number but OK, or None where none has it.
pub fn status_numbered(number: u32) -> Option<Status>
    ensures { result ≡ numbered status_number refusals number }
{
    match number {
        1 => Some(Status::Perm),
        2 => Some(Status::NoEnt),
        5 => Some(Status::Io),
        13 => Some(Status::Acces),
        17 => Some(Status::Exist),
        20 => Some(Status::NotDir),
        21 => Some(Status::IsDir),
        22 => Some(Status::Inval),
        27 => Some(Status::FBig),
        28 => Some(Status::NoSpc),
        31 => Some(Status::MLink),
        63 => Some(Status::NameTooLong),
        66 => Some(Status::NotEmpty),
        70 => Some(Status::Stale),
        10_001 => Some(Status::BadHandle),
        10_002 => Some(Status::NotSync),
        10_003 => Some(Status::BadCookie),
        10_004 => Some(Status::NotSupp),
        10_005 => Some(Status::TooSmall),
        10_006 => Some(Status::ServerFault),
        _ => None,
    }
}
