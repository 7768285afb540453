//! What a call asks of the core, and in which order it is taken again.
ghost use Rattle.std.specs.Prelude.{◌≡◌, ◌↔◌, IsTrue};
ghost use Rattle.base.specs.declared.TheConstants.{BLOCK_BYTES};
ghost use Rattle.objects.specs.Mode.{covers};

use base::BLOCK_BYTES;
use disk::BlockNo;
use objects::{Addr, Mode};

/// What a call asks of the core: an object in a mode, or a block to write whole.
#[derive(Clone, Copy, Debug, PartialEq, Eq)]
pub enum LockRequest {
    Object(Addr, Mode),
    Claim(BlockNo),
}

impl LockRequest {
    ghost use Rattle.store_promise.specs.LockRequests.{is_bar, is_upgrade, image_offset_of, upgraded_by, rank_of};

    /// Where its first byte lies in the image.
    pub fn image_offset(self) -> usize
        ensures { result ≡ image_offset_of self }
    {
        match self {
            LockRequest::Object(addr, _) => addr.block.0 as usize * BLOCK_BYTES + addr.offset,
            LockRequest::Claim(block) => block.0 as usize * BLOCK_BYTES,
        }
    }

    /// Which of two is taken again first: the one of the lower rank. An object has one rank, whatever its mode.
    pub fn rank(self) -> usize
        ensures { result ≡ rank_of self }
    {
        let image_offset = self.image_offset() * (BLOCK_BYTES + 1);
        match self {
            LockRequest::Object(addr, _) => (image_offset + addr.len) * 2 + 1,
            LockRequest::Claim(_) => (image_offset + BLOCK_BYTES) * 2,
        }
    }

    /// The lock request in the mode in which another asks for its object, where that is the higher one.
    pub fn upgraded_by(self, one: LockRequest) -> LockRequest
        ensures { result ≡ upgraded_by one self }
    {
        match (one, self) {
            (LockRequest::Object(_, request), LockRequest::Object(addr, mode)) => {
                LockRequest::Object(addr, mode.upgraded(request))
            }
            (LockRequest::Object(_, _), LockRequest::Claim(block)) => LockRequest::Claim(block),
            (LockRequest::Claim(_), other) => other,
        }
    }

    /// Whether it bars a wait for what is asked for: it begins above that, or is raised by it.
    pub fn bars(self, request: LockRequest) -> bool
        ensures { result ≡ is_bar request self }
    {
        request.image_offset() < self.image_offset() || request.upgrades(self)
    }

    // Whether what is asked for raises what was taken: the same object, or the whole of a block that is to be claimed.
    fn upgrades(self, taken: LockRequest) -> bool
        ensures { result ≡ is_upgrade self taken }
    {
        match (self, taken) {
            (LockRequest::Object(addr, mode), LockRequest::Object(other, had)) => {
                addr.block.0 == other.block.0
                    && addr.offset == other.offset
                    && addr.len == other.len
                    && !covers(had, mode)
            }
            (LockRequest::Claim(block), LockRequest::Object(other, had)) => {
                block.0 == other.block.0 && other.len == BLOCK_BYTES && had != Mode::Exclusive
            }
            (_, LockRequest::Claim(_)) => false,
        }
    }
}

// Whether what is taken in the one mode may be used as in the other.
fn covers(had: Mode, request: Mode) -> bool
    ensures { result ≡ covers had request }
{
    match had {
        Mode::Exclusive => true,
        Mode::Shared => request != Mode::Exclusive,
    }
}
