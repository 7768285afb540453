//! What a worker has asked for, beside what it goes by. With it, how far a worker is can be told from its
//! state.
ghost use Rattle.std.specs.Prelude.{◌≡◌, Some, None};
ghost use Rattle.objects.specs.declared.mode.Mode.TheVariants as modes;

use super::parts::Job;
use objects::{Addr, Mode};
use std::marker::Model;
use std::snapshot::Snapshot;

// The object whose block is fetched or was fetched last, in which mode it is asked for, and the call whose procedure was committed and waits for
// its place. They serve proofs alone, and the second takes no memory.
#[derive(Drop)]
pub(crate) struct Asked {
    fetch_addr: Option<Addr>,
    mode: Mode,
    waiting: Option<Snapshot<Job>>,
    alloc_cursor: u32,
}

impl Model for Asked {
    ghost use Rattle.std.specs.Prelude.{option_map};
    ghost use Rattle.store_workers.specs.Asked.{Asking};

    ghost Value = { Asking };

    ghost view = { λ a. record {
      fetch_addr = a.fetch_addr;
      mode = a.mode;
      waiting = option_map (λ job. job.value) a.waiting;
    } };
}

impl Asked {
    // Nothing yet. Free blocks are looked for from this piece of their bitmap on, which no clause speaks of.
    pub(super) fn new(alloc_cursor: u32) -> Asked
        ensures { result ≡ record { fetch_addr = None; mode = modes.Exclusive; waiting = None } }
    {
        Asked {
            fetch_addr: None,
            mode: Mode::Exclusive,
            waiting: None,
            alloc_cursor,
        }
    }

    // The piece of the bitmap from which free blocks are looked for, where no call told another.
    pub(super) fn alloc_cursor(&self) -> u32 {
        self.alloc_cursor
    }

    // The block of this object, which is asked for in this mode, is to be fetched.
    pub(super) fn begin_fetch(&mut self, addr: Addr, mode: Mode)
        ensures { self.new ≡ record self.old { fetch_addr = Some addr; mode = mode } }
    {
        self.fetch_addr = Some(addr);
        self.mode = mode;
    }

    // The procedure of this call was committed, and waits for its place.
    pub(super) fn wait_with(&mut self, job: &Job)
        ensures { self.new ≡ record self.old { waiting = Some job.now } }
    {
        self.waiting = Some(Snapshot::of(job));
    }
}
