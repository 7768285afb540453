//! What is known of a call before its plan.
ghost use Rattle.std.specs.Prelude.{◌≡◌};
ghost use Rattle.nfs_spec.specs.Model.Calls.{begins_transaction, is_answered_stable};
ghost use Rattle.procs.specs.ReadingMode.{reading_mode};

use nfs_types::Call;
use objects::Mode;

/// Whether the call begins a transaction: each but NULL, which does nothing (RFC 1813, section 3.3).
pub fn begins_transaction(call: &Call) -> bool
    ensures { result ≡ begins_transaction call.now }
{
    call.facts().begins_transaction
}

/// The mode in which the plans of a call ask for what they read: alone where the call may change it, and beside others
/// where it only tells of it.
pub fn reading_mode(call: &Call) -> Mode
    ensures { result ≡ reading_mode call.now }
{
    if call.facts().changes {
        Mode::Exclusive
    } else {
        Mode::Shared
    }
}

/// Whether the call is answered only once its place is settled (RFC 1813, section 4.8).
pub fn is_answered_stable(call: &Call) -> bool
    ensures { result ≡ is_answered_stable call.now }
{
    call.facts().is_stable
}
