//! A store taken apart for its threads.
ghost use Rattle.std.specs.Prelude.{◌≡◌, []};
ghost use Rattle.txn.specs.CoreWindow.{PreservesHome};

use crate::Store;
use disk::CrashDisk;
use procs::Done;
use txn::Core;

/// A store's core and its disk, which belong together: only `parts` makes one, of a store.
#[derive(Drop)]
pub struct TakenApart<D: Drop> {
    core: Core<Done>,
    disk: D,
}

impl<D: Drop> TakenApart<D> {
    /// Its core.
    pub fn core(&self) -> &Core<Done>
        ensures { result.now ≡ self.now.core }
    {
        &self.core
    }

    /// The core, and the disk.
    pub fn into_both(self) -> (Core<Done>, D)
        ensures { (result.0 ≡ self.core) × (result.1 ≡ self.disk) }
    {
        let TakenApart { core, disk } = self;
        (core, disk)
    }
}

/// Takes a store apart. Every transaction that is out is ended without a change. It makes no device call.
pub fn parts<D: CrashDisk + Drop>(store: Store<D>) -> TakenApart<D>
    ensures core { result.core ≡ record store.core {
      out = [];
      holds = result.core.holds;
      present = result.core.present;
    } }
    ensures idle { store.core.out ≡ [] → result.core ≡ store.core }
    ensures home { PreservesHome store.core result.core }
    ensures disk { result.disk ≡ store.disk }
{
    let Store {
        disk,
        mut core,
        boot: _,
        alloc_cursor: _,
    } = store;
    core.abort_all();
    TakenApart { core, disk }
}
