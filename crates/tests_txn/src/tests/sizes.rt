//! With ample memory nothing is refused for want of it, at sizes far past the smallest, and as many blocks stay in
//! memory that nobody needs as the limit says, and fewer than twice as many.

use crate::tests::bench::{Bench, Ended, Seen, Step};
use crate::tests::fake_changes::{At, Toy, change_of};
use crate::tests::script::Row;
use crate::tests::whole::writes;
use base::CLEAN_BLOCKS;
use disk::CrashDisk;
use std::alloc::{AllocError, Global};
use std::test::Fail;
use txn::Change;
use wal::Seq;

// The limit, and twice as many.
const LIMIT: u32 = CLEAN_BLOCKS as u32;

const TWICE: u32 = 2 * LIMIT;

// Steps that read so many whole blocks, each until it is held.
fn reads(alloc: Global, count: u32) -> Result<Vec<Step>, AllocError> {
    let mut steps = Vec::new(alloc);
    for index in 0..count {
        steps.push(Step::Read(At::Whole(index)))?;
    }
    Ok(steps)
}

// A transaction reads so many whole blocks and ends, so that they are unpinned in their order. Then another wants
// these.
fn sees_later(rt: &HostRuntime, count: u32, later: &[Step], wanted: &[Seen]) -> Result<bool, Fail> {
    let mut bench = Bench::new(rt.alloc(), 0, &[])?;
    let steps = reads(rt.alloc(), count)?;
    let zeros = vec![in rt.alloc(); Seen::Bytes(0); count as usize]?;
    Ok(bench.sees(1, steps.as_slice(), zeros.as_slice()) && bench.sees(2, later, wanted))
}

#[test]
fn many_blocks_are_held_at_once(rt: HostRuntime) -> Result<(), Fail> {
    assert!(rt; sees_later(&rt, 200, &[], &[])?);
    Ok(())
}

// With the last of twice the limit those before the second half go, and 8 come after that.
#[test]
fn the_blocks_that_were_needed_last_stay(rt: HostRuntime) -> Result<(), Fail> {
    let later = [
        Step::Want(At::Whole(TWICE + 7)),
        Step::Want(At::Whole(LIMIT)),
        Step::Want(At::Whole(LIMIT - 1)),
        Step::Want(At::Whole(0)),
    ];
    let wanted = [Seen::Bytes(0), Seen::Bytes(0), Seen::Fetched, Seen::Fetched];
    assert!(rt; sees_later(&rt, TWICE + 8, &later, &wanted)?);
    Ok(())
}

// Of one fewer than twice the limit all stay.
#[test]
fn fewer_than_twice_the_limit_stay(rt: HostRuntime) -> Result<(), Fail> {
    let later = [Step::Want(At::Whole(0)), Step::Want(At::Whole(TWICE - 2))];
    assert!(rt; sees_later(&rt, TWICE - 1, &later, &[Seen::Bytes(0), Seen::Bytes(0)])?);
    Ok(())
}

#[test]
fn a_change_of_128_blocks_is_committed(rt: HostRuntime) -> Result<(), Fail> {
    let mut bench = Bench::new(rt.alloc(), 0, &[])?;
    let outcome = [
        Row::WritesMany(0, 128, Ended::Place(Seq(1))),
        Row::Has(128, 1),
        Row::IsSettled(1, false),
    ];
    assert_eq!(rt; added_blocks(&bench, writes(rt.alloc(), 0, 128)), Some(128));
    assert_eq!(rt; bench.first_wrong(&outcome), None);
    Ok(())
}

#[test]
fn a_block_of_two_objects_is_added_once(rt: HostRuntime) -> Result<(), Fail> {
    let bench = Bench::new(rt.alloc(), 0, &[])?;
    let two = [(At::Eight(0, 0), 1), (At::Eight(0, 8), 2)];
    let toy = change_of(rt.alloc(), &[], &two);
    assert_eq!(rt; added_blocks(&bench, toy), Some(1));
    Ok(())
}

// How many blocks a change adds to the tail, where there is one.
fn added_blocks<D: CrashDisk>(bench: &Bench<D>, toy: Option<Toy>) -> Option<usize> {
    Some(bench.core.added_blocks(toy?.written()))
}
