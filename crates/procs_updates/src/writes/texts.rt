//! The tests and the reply of WRITE (RFC 1813, section 3.3.7).
ghost use Rattle.std.specs.Prelude.{◌≡◌};
ghost use Rattle.nfs_spec.specs.Procedures.Write.{committed, is_wrong_count, write_refusal, written_reply};
ghost use Rattle.procs_files.specs.Heads.{bare};

use base::{LARGEST_FILE, TRANSFER_BYTES};
use nfs_types::{Credential, Ctx, FileKind, Stability, Status, Verifier, Written};
use procs_files::{InodeAttributes, may_write_file};

fn is_wrong_count(count: u32, text: &[u8]) -> bool
    ensures { result ≡ is_wrong_count count text.now }
{
    count as usize != text.len() || count > TRANSFER_BYTES
}

/// Why bytes aren't written to a file.
pub(crate) fn write_refusal(
    caller: &Credential,
    offset: u64,
    count: u32,
    text: &[u8],
    file: &InodeAttributes,
) -> Option<Status>
    ensures { result ≡ write_refusal caller.now offset count text.now (bare file.now) }
{
    if !matches!(file.kind, FileKind::Regular) {
        Some(Status::Inval)
    } else if is_wrong_count(count, text) {
        Some(Status::Inval)
    } else if !may_write_file(caller, file) {
        Some(Status::Acces)
    } else if offset as u128 + count as u128 > LARGEST_FILE as u128 {
        Some(Status::FBig)
    } else {
        None
    }
}

fn committed(stability: Stability) -> Stability
    ensures { result ≡ committed stability }
{
    match stability {
        Stability::Unstable => Stability::Unstable,
        Stability::DataSync | Stability::FileSync => Stability::FileSync,
    }
}

pub(crate) fn written_reply(ctx: &Ctx, count: u32, stability: Stability) -> Written
    ensures { result ≡ written_reply ctx.now count stability }
{
    Written {
        count,
        committed: committed(stability),
        verifier: Verifier::of_boot(ctx.boot),
    }
}
