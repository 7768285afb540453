//! Transactions beside each other on one block, and groups of the log.

use crate::tests::bench::{Bench, Ended, Seen, Step};
use crate::tests::fake_changes::{At, BLOCKS};
use crate::tests::script::{Act, Row};
use base::FIRST_HOME_BLOCK;
use disk::BlockNo;
use std::test::Fail;
use wal::Seq;

const AT_0: At = At::Eight(0, 0);

const AT_4: At = At::Eight(0, 4);

const AT_8: At = At::Eight(0, 8);

const AT_16: At = At::Eight(0, 16);

// The last block of the log, and the one past the device's last.
const LOGGED: At = At::Numbered(FIRST_HOME_BLOCK - 1);

const PAST: At = At::Numbered(BLOCKS);

// The block of all these bytes.
const HOME: BlockNo = BlockNo(FIRST_HOME_BLOCK);

const ZERO: Seen = Seen::Bytes(0);

// While the block is fetched for the first, the second wants other bytes of it, and the third those of the first, and
// others. The fetch fails. Then each reads bytes of its own, the third having wanted those of the first once more, and each
// commits a change of what it read. The three are one group of the block.
const THREE_ON_ONE_BLOCK: [Row; 22] = [
    Row::First(Act::Begins(1)),
    Row::Second(Act::Begins(2)),
    Row::Third(Act::Begins(3)),
    Row::FetchesOut(AT_0),
    Row::Second(Act::Takes(Step::Want(AT_8), Seen::Loading)),
    Row::Third(Act::Takes(Step::Want(AT_0), Seen::Busy)),
    Row::Third(Act::Takes(Step::Want(AT_16), Seen::Loading)),
    Row::FetchFails,
    Row::First(Act::Takes(Step::Read(AT_0), ZERO)),
    Row::Second(Act::Takes(Step::Want(AT_8), ZERO)),
    Row::Third(Act::Takes(Step::Want(AT_0), Seen::Busy)),
    Row::Third(Act::Takes(Step::Want(AT_16), ZERO)),
    Row::First(Act::Commits(&[(AT_0, 0)], &[(AT_0, 7)], Ended::Place(Seq(1)))),
    Row::Second(Act::Commits(&[(AT_8, 0)], &[(AT_8, 8)], Ended::Place(Seq(2)))),
    Row::Third(Act::Commits(&[(AT_16, 0)], &[(AT_16, 9)], Ended::Place(Seq(3)))),
    Row::Logs(4),
    Row::IsSettled(3, true),
    Row::First(Act::Begins(4)),
    Row::First(Act::Takes(Step::Read(AT_0), Seen::Bytes(7))),
    Row::First(Act::Takes(Step::Read(AT_8), Seen::Bytes(8))),
    Row::First(Act::Takes(Step::Read(AT_16), Seen::Bytes(9))),
    Row::Has(0, 3),
];

#[test]
fn three_transactions_on_one_block(rt: HostRuntime) -> Result<(), Fail> {
    let mut bench = Bench::new(rt.alloc(), 0, &[])?;
    assert_eq!(rt; bench.first_wrong(&THREE_ON_ONE_BLOCK), None);
    Ok(())
}

// Two share an object. A third wants it alone, and so does each of the two. The first commits a change of what it shares, and
// ends. The third and the second want it alone again, and the third beside the second. The second commits a change, and then
// the third wants it.
const TWO_SHARED_HOLDERS: [Row; 14] = [
    Row::First(Act::Begins(1)),
    Row::Second(Act::Begins(2)),
    Row::Third(Act::Begins(3)),
    Row::First(Act::Takes(Step::Share(AT_0), ZERO)),
    Row::Second(Act::Takes(Step::Share(AT_0), ZERO)),
    Row::Third(Act::Takes(Step::Want(AT_0), Seen::Busy)),
    Row::First(Act::Takes(Step::Want(AT_0), Seen::Busy)),
    Row::Second(Act::Takes(Step::Want(AT_0), Seen::Busy)),
    Row::First(Act::Commits(&[(AT_0, 0)], &[(AT_0, 5)], Ended::Foreign)),
    Row::Third(Act::Takes(Step::Want(AT_0), Seen::Busy)),
    Row::Second(Act::Takes(Step::Want(AT_0), ZERO)),
    Row::Third(Act::Takes(Step::Share(AT_0), Seen::Busy)),
    Row::Second(Act::Commits(&[(AT_0, 0)], &[(AT_0, 7)], Ended::Place(Seq(1)))),
    Row::Third(Act::Takes(Step::Want(AT_0), Seen::Bytes(7))),
];

#[test]
fn two_shared_holders(rt: HostRuntime) -> Result<(), Fail> {
    let mut bench = Bench::new(rt.alloc(), 0, &[])?;
    assert_eq!(rt; bench.first_wrong(&TWO_SHARED_HOLDERS), None);
    Ok(())
}

// What is taken is taken by its very address, also for who has it, and no longer than its transaction is out.
const REFUSED_ADDRESSES: [Row; 15] = [
    Row::First(Act::Begins(1)),
    Row::First(Act::Takes(Step::Want(AT_0), Seen::Fetched)),
    Row::First(Act::Takes(Step::Want(AT_4), Seen::Busy)),
    Row::First(Act::Takes(Step::Want(At::Whole(0)), Seen::Busy)),
    Row::First(Act::Takes(Step::Claim(HOME), Seen::Busy)),
    Row::First(Act::Takes(Step::Want(AT_0), ZERO)),
    Row::First(Act::Takes(Step::Want(AT_8), ZERO)),
    Row::First(Act::Aborts),
    Row::First(Act::Begins(2)),
    Row::First(Act::Takes(Step::Read(AT_4), ZERO)),
    Row::First(Act::Takes(Step::Want(AT_0), Seen::Busy)),
    Row::First(Act::Takes(Step::Want(AT_16), ZERO)),
    Row::Second(Act::Begins(3)),
    Row::Second(Act::Takes(Step::Want(LOGGED), Seen::Outside)),
    Row::Second(Act::Takes(Step::Want(PAST), Seen::Outside)),
];

#[test]
fn refused_addresses_of_one_block(rt: HostRuntime) -> Result<(), Fail> {
    let mut bench = Bench::new(rt.alloc(), 0, &[])?;
    assert_eq!(rt; bench.first_wrong(&REFUSED_ADDRESSES), None);
    Ok(())
}

// The group is one body, a barrier, the header, a barrier; and home the same.
const A_HUNDRED_APPENDS: [Row; 8] = [
    Row::Raises(AT_0, 100),
    Row::Has(1, 100),
    Row::Logs(4),
    Row::IsSettled(100, true),
    Row::Installs(4),
    Row::Has(0, 0),
    Row::First(Act::Begins(101)),
    Row::First(Act::Takes(Step::Read(AT_0), Seen::Bytes(100))),
];

#[test]
fn a_hundred_appends_of_one_block_are_one_group(rt: HostRuntime) -> Result<(), Fail> {
    let mut bench = Bench::new(rt.alloc(), 0, &[])?;
    assert_eq!(rt; bench.first_wrong(&A_HUNDRED_APPENDS), None);
    Ok(())
}

// The log has 511 slots. A block that its tail has takes no room. One more is logged once slots are free: once the 511 are home.
const A_FULL_TAIL: [Row; 16] = [
    Row::WritesMany(0, 128, Ended::Place(Seq(1))),
    Row::WritesMany(128, 128, Ended::Place(Seq(2))),
    Row::WritesMany(256, 128, Ended::Place(Seq(3))),
    Row::WritesMany(384, 127, Ended::Place(Seq(4))),
    Row::WritesMany(511, 1, Ended::Full),
    Row::WritesMany(510, 2, Ended::Full),
    Row::WritesMany(510, 1, Ended::Place(Seq(5))),
    Row::Has(511, 5),
    Row::Logs(514),
    Row::IsSettled(5, true),
    Row::WritesMany(511, 1, Ended::Place(Seq(6))),
    Row::Logs(0),
    Row::IsSettled(6, false),
    Row::Installs(514),
    Row::Logs(4),
    Row::IsSettled(6, true),
];

#[test]
fn a_full_tail_of_the_log(rt: HostRuntime) -> Result<(), Fail> {
    let mut bench = Bench::new(rt.alloc(), 0, &[])?;
    assert_eq!(rt; bench.first_wrong(&A_FULL_TAIL), None);
    Ok(())
}
