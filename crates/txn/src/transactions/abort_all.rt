//! All that is out of a core, ended.
ghost use Rattle.std.specs.Prelude.{◌≡◌, ◌<◌, [], IfSome, IfNone, length, slice_index};
ghost use Rattle.txn_law.specs.CoreWindow.{PreservesHome};

use super::Core;
use crate::{Change, Tx};

impl<C: Change> Core<C> {
    /// Ends every transaction that is out, without a change. Who still has one has one that isn't out then.
    pub fn abort_all(&mut self)
        ensures only { self.new ≡ record self.old {
          out = [];
          holds = self.new.holds;
          present = self.new.present;
        } }
        ensures none { self.old.out ≡ [] → self.new ≡ self.old }
        ensures preserves { PreservesHome self.old self.new }
    {
        'ending: while let Some(number) = self.one_out() {
            self.abort(Tx { number });
        }
    }

    // The number of a transaction that is out, if one is.
    fn one_out(&self) -> Option<u64>
        ensures some { IfSome result (λ number. (0 < length self.now.out)
            × (slice_index self.now.out 0 ≡ number)) }
        ensures none { IfNone result (self.now.out ≡ []) }
    {
        let out = &self.out;
        if out.is_empty() {
            return None;
        }
        Some(out[0])
    }
}
