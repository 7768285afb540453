//! What the numbers of a block count to, as it comes with the block: the same each time that it is read, and another
//! once a commit has changed the block.

use crate::tests::bench::{Bench, Ended, Seen, Step};
use crate::tests::fake_changes::{At, home};
use base::INDIRECT_INDEXES;
use std::test::Fail;
use wal::Seq;

// All numbers of a block that has no zeros.
const ALL: u32 = INDIRECT_INDEXES as u32;

#[test]
fn a_count_is_that_of_the_changed_block(rt: HostRuntime) -> Result<(), Fail> {
    let mut bench = Bench::new(rt.alloc(), 0, &[])?;
    assert!(rt; bench.sees(1, &[Step::Read(At::Whole(0))], &[Seen::Bytes(0)]));
    for _ in 0..3u8 {
        assert!(rt; bench.count(home(0)) == Some(0));
    }
    assert!(rt; bench.changes(At::Whole(0), 0, 1, Ended::Place(Seq(1))));
    for _ in 0..3u8 {
        assert!(rt; bench.count(home(0)) == Some(ALL));
    }
    Ok(())
}
