//! Why nothing is listed, before an entry is looked at.
ghost use Rattle.std.specs.Prelude.{◌≡◌};
ghost use Rattle.nfs_spec.specs.Model.SetAttr.{first_of_tests};
ghost use Rattle.nfs_spec.specs.Procedures.Listing.{asked_bytes, listing_budget, is_bad_cookie, listing_verifier};
ghost use Rattle.procs_files.specs.Heads.{bare};
ghost use Rattle.procs_queries.specs.Listings.Tests.{early_tests};

use base::{LISTING_BYTES, LISTING_FRAME};
use nfs_types::{Credential, FileKind, Status, VERIFIER_BYTES, Verifier};
use procs_files::{InodeAttributes, may_list};

// The bytes that a call asks for, as far as one call may.
fn asked_bytes(count: u32) -> u32
    ensures { result ≡ asked_bytes count }
{
    count.min(LISTING_BYTES)
}

/// What of so many bytes is left for entries.
pub(crate) fn listing_budget(count: u32) -> u32
    ensures { result ≡ listing_budget count }
{
    asked_bytes(count).saturating_sub(LISTING_FRAME)
}

/// The verifier of each listing.
pub(crate) fn listing_verifier() -> Verifier
    ensures { result ≡ listing_verifier }
{
    Verifier {
        bytes: [0; VERIFIER_BYTES],
    }
}

fn is_bad_cookie(cookie: u64, verifier: &Verifier) -> bool
    ensures { result ≡ is_bad_cookie cookie verifier.now }
{
    cookie != 0 && !verifier.is_zeros()
}

/// Why nothing is listed, whatever entries there are.
pub(crate) fn early_refusal(
    caller: &Credential,
    cookie: u64,
    verifier: &Verifier,
    count: u32,
    directory: &InodeAttributes,
) -> Option<Status>
    ensures { result ≡ first_of_tests (early_tests caller.now cookie verifier.now count (bare directory.now)) }
{
    if !matches!(directory.kind, FileKind::Directory) {
        Some(Status::NotDir)
    } else if !may_list(caller, directory) {
        Some(Status::Acces)
    } else if is_bad_cookie(cookie, verifier) {
        Some(Status::BadCookie)
    } else if asked_bytes(count) < LISTING_FRAME {
        Some(Status::TooSmall)
    } else {
        None
    }
}
