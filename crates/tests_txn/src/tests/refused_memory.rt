//! Where memory is refused once, nothing has changed, and the same call does it then.

use crate::tests::bench::{Bench, Ended, Seen, Step};
use crate::tests::fake_changes::At;
use crate::tests::script::{Act, Row};
use std::test::Fail;
use wal::Seq;

const AT: At = At::Eight(0, 0);

const ONE_CHANGE: [Row; 5] = [
    Row::First(Act::Begins(1)),
    Row::First(Act::Takes(Step::Read(AT), Seen::Bytes(0))),
    Row::First(Act::Commits(&[(AT, 0)], &[(AT, 7)], Ended::Place(Seq(1)))),
    Row::Logs(4),
    Row::Installs(4),
];

// Run it with `--fail-alloc`: the first few allocations are those of the device.
#[test]
fn a_refused_allocation_changes_nothing(rt: HostRuntime) -> Result<(), Fail> {
    let mut bench = Bench::new(rt.alloc(), 0, &[])?;
    assert_eq!(rt; bench.first_wrong(&ONE_CHANGE), None);
    Ok(())
}
