//! What a worker's call knows: what it has taken, and was kept off from.
ghost use Rattle.std.specs.Prelude.{[], ◌≡◌, ◌<◌, ◌≤◌, ◌++◌, ◌∷◌, nat_le, position, take, true};
ghost use Rattle.std.specs.VecDeque.{deque_len, deque_capacity};
ghost use Rattle.store_promise.specs.LockRequests.{Rises, inserted, is_barred, rank_of};

use std::alloc::{AllocError, Global};
use std::collections::VecDeque;
use std::marker::Model;
use store_promise::LockRequest;

// What a call knows, from the lowest on; how much of it its transaction has taken; what it was kept off from;
// and whether room was made for one more. What comes in rising or in falling order is put at an end, and moves none of
// the others.
#[derive(Drop)]
pub(crate) struct Known {
    lock_requests: VecDeque<LockRequest>,
    taken: usize,
    off: Option<LockRequest>,
    has_space: bool,
}

impl Model for Known {
    ghost use Rattle.std.specs.Prelude.{take, drop};
    ghost use Rattle.store_workers.specs.Knowing.{Knowing};

    ghost Value = { Knowing };

    ghost view = { λ k. record {
      taken = take k.taken k.lock_requests.items;
      left = drop k.taken k.lock_requests.items;
      off = k.off;
      has_space = k.has_space;
    } };

    ghost use Rattle.std.specs.Prelude.{◌≡◌, ◌≤◌, ◌<◌, true, is_some};
    ghost use Rattle.std.specs.VecDeque.{deque_len, deque_capacity};
    ghost use Rattle.store_promise.specs.LockRequests.{Rises};

    ghost invariant = { λ k. (k.taken ≤ deque_len k.lock_requests) × Rises k.lock_requests.items
        × (is_some k.off ≡ true → k.has_space ≡ true)
        × (k.has_space ≡ true → deque_len k.lock_requests < deque_capacity k.lock_requests) };
}

impl Known {
    ghost use Rattle.std.specs.Prelude.{Some, None, [], true, false, OnOk, OnErr};
    ghost use Rattle.store_promise.specs.LockRequests.{is_barred};
    ghost use Rattle.store_workers.specs.Knowing.{IsNextOf, first_of, given_back, nothing_known, with_lock_request, with_off, without_off};

    // Nothing yet.
    pub(crate) fn new(alloc: Global) -> Known
        ensures { result ≡ nothing_known }
    {
        Known {
            lock_requests: VecDeque::new(alloc),
            taken: 0,
            off: None,
            has_space: false,
        }
    }

    // A call is taken, which knows nothing.
    pub(crate) fn forget(&mut self)
        ensures { self.new ≡ nothing_known }
    {
        self.has_space = false;
        self.off = None;
        self.taken = 0;
        self.lock_requests.clear();
    }

    // Makes room for one more.
    pub(crate) fn reserve_next(&mut self) -> Result<(), AllocError>
        ensures has_space { OnOk result (self.new ≡ record self.old { has_space = true }) }
        ensures same { OnErr result (self.new ≡ self.old) }
    {
        self.lock_requests.reserve(1)?;
        self.has_space = true;
        Ok(())
    }

    // What is to be taken again next.
    pub(crate) fn next(&self) -> Option<LockRequest>
        ensures { result ≡ first_of self.now.left }
    {
        self.lock_requests.get(self.taken).copied()
    }

    // Notes that the transaction has taken this, the next of what is left, if anything is.
    pub(crate) fn take(&mut self, one: LockRequest)
        requires next { IsNextOf one self.old.left }
        requires has_space { self.old.left ≡ [] → self.old.has_space ≡ true }
        ensures { self.new ≡ with_lock_request one self.old }
    {
        self.has_space = false;
        self.off = None;
        if self.taken < self.lock_requests.len() {
            self.taken += 1;
        } else {
            put(&mut self.lock_requests, one);
            self.taken = self.lock_requests.len();
        }
    }

    // Whether the transaction has taken something that bars a wait for this: above it, or what it raises.
    pub(crate) fn bars(&self, request: LockRequest) -> bool
        ensures barred { result ≡ is_barred request self.now.taken }
        ensures next { first_of self.now.left ≡ Some request → result ≡ false }
    {
        any_bars(&self.lock_requests, self.taken, request)
    }

    // Notes what it was kept off from.
    pub(crate) fn keep_off(&mut self, request: LockRequest)
        requires has_space { self.old.has_space ≡ true }
        ensures { self.new ≡ with_off request self.old }
    {
        self.off = Some(request);
    }

    // Notes that it was kept off from nothing.
    pub(crate) fn not_off(&mut self)
        ensures { self.new ≡ without_off self.old }
    {
        self.off = None;
    }

    // Gives all back, to be taken again.
    pub(crate) fn give_back(&mut self)
        ensures { self.new ≡ given_back self.old }
    {
        self.has_space = false;
        self.taken = 0;
        if let Some(request) = self.off.take() {
            put(&mut self.lock_requests, request);
        }
    }
}

// Whether one of the first of these bars a wait for what is asked for.
fn any_bars(lock_requests: &VecDeque<LockRequest>, count: usize, request: LockRequest) -> bool
    requires { count ≤ deque_len lock_requests.now }
    ensures { result ≡ is_barred request (take count lock_requests.now.items) }
{
    lock_requests
        .iter()
        .take(count)
        .any(|one| one.bars(request))
}

// Where the first lock request stands whose rank isn't below this one: halved down to, as ranks rise.
fn position_from(lock_requests: &VecDeque<LockRequest>, rank: usize) -> Option<usize>
    requires { Rises lock_requests.now.items }
    ensures { result ≡ position (λ other. nat_le rank (rank_of other)) lock_requests.now.items }
{
    let index = lock_requests.partition_point(|other| other.rank() < rank);
    if index < lock_requests.len() {
        Some(index)
    } else {
        None
    }
}

// Whether a lock request stands above all of these.
fn is_above(lock_requests: &VecDeque<LockRequest>, one: LockRequest) -> bool
    requires { Rises lock_requests.now.items }
    ensures { result ≡ true → inserted one lock_requests.now.items ≡ lock_requests.now.items ++ one ∷ [] }
{
    if lock_requests.len() == 0 {
        return true;
    }
    lock_requests[lock_requests.len() - 1].rank() < one.rank()
}

// Puts a lock request behind these.
fn push_last(lock_requests: &mut VecDeque<LockRequest>, one: LockRequest)
    requires { deque_len lock_requests.old < deque_capacity lock_requests.old }
    ensures { lock_requests.new.items ≡ lock_requests.old.items ++ one ∷ [] }
{
    lock_requests.push_back_reserved(one);
}

// Puts a lock request in its place: one that stands above all others without a walk past them.
fn put(lock_requests: &mut VecDeque<LockRequest>, one: LockRequest)
    requires rise { Rises lock_requests.old.items }
    requires has_space { deque_len lock_requests.old < deque_capacity lock_requests.old }
    ensures items { lock_requests.new.items ≡ inserted one lock_requests.old.items }
    ensures rise { Rises lock_requests.new.items }
{
    if is_above(lock_requests, one) {
        push_last(lock_requests, one);
        return;
    }
    insert(lock_requests, one);
}

// Puts a lock request in its place. Where its object is there, that is raised to its mode.
fn insert(lock_requests: &mut VecDeque<LockRequest>, one: LockRequest)
    requires rise { Rises lock_requests.old.items }
    requires has_space { deque_len lock_requests.old < deque_capacity lock_requests.old }
    ensures items { lock_requests.new.items ≡ inserted one lock_requests.old.items }
    ensures rise { Rises lock_requests.new.items }
{
    match position_from(lock_requests, one.rank()) {
        Some(index) => {
            if lock_requests[index].rank() == one.rank() {
                lock_requests[index] = lock_requests[index].upgraded_by(one);
                return;
            }
            match lock_requests.insert(index, one) {
                Ok(()) => {}
                Err(_) => unreachable!(),
            }
        }
        None => lock_requests.push_back_reserved(one),
    }
}
