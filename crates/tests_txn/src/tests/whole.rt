//! Changes that write many blocks whole, which were claimed for them.

use crate::tests::bench::{Bench, Ended, Step};
use crate::tests::fake_changes::{At, Toy, change_of, home};
use disk::CrashDisk;
use std::alloc::{AllocError, Global};

// Steps that claim so many blocks, from a home block on.
pub fn claims(alloc: Global, first: u32, count: u8) -> Result<Vec<Step>, AllocError> {
    let mut steps = Vec::new(alloc);
    for index in 0..u32::from(count) {
        steps.push(Step::Claim(home(first.saturating_add(index))))?;
    }
    Ok(steps)
}

// A change that writes so many whole blocks, from a home block on, where memory is had.
pub fn writes(alloc: Global, first: u32, count: u8) -> Option<Toy> {
    let written = whole(alloc, first, count).ok()?;
    change_of(alloc, &[], written.as_slice())
}

fn whole(alloc: Global, first: u32, count: u8) -> Result<Vec<(At, u8)>, AllocError> {
    let mut written = Vec::new(alloc);
    for index in 0..u32::from(count) {
        written.push((At::Whole(first.saturating_add(index)), 3))?;
    }
    Ok(written)
}

// What such a change of blocks that it has claimed comes to.
pub fn claim_and_write_many<D: CrashDisk>(
    bench: &mut Bench<D>,
    first: u32,
    count: u8,
) -> Option<Ended> {
    let toy = writes(bench.alloc, first, count)?;
    let steps = claims(bench.alloc, first, count).ok()?;
    Some(bench.commit(steps.as_slice(), toy))
}
